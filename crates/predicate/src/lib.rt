// filter_selectivity_for_predicate of the source's analysis.rs. An And or an Or is judged through its
// operands, each of a smaller number.
#![tactic(auto)]

ghost use Rattle.std.specs.Prelude.{◌≡◌};
ghost use Rattle.float.specs.Order.{f64_one};
ghost use Rattle.lookup.specs.Lookup.{operands_of};
ghost use Rattle.lookup.specs.Recursion.{below};
ghost use Rattle.sheet.specs.Sheet.{viewed};
ghost use Rattle.predicate.specs.Predicate.{operand_product, selectivity_by, default_of, filter_selectivity_for_predicate};

use comparison::binary::binary_selectivity;
use comparison::unary::unary_selectivity;
use estimate::Estimate;
use leaves::{like_estimate, literal_estimate};
use lookup::numbers::{Run, expression_of, operand_in, run_end};
use nary::{nary_estimate, operand_factor};
use range::selectivity::default_estimate;
use records::expressions::{Expression, NaryOp};
use sheet::View;

mod leaves;
mod nary;

#[cycle(predicate)]
#[tactic(auto, unfolding(crate::specs::Predicate::filter_selectivity_for_predicate, lookup::specs::Recursion::by_number, crate::specs::Predicate::selectivity_by))]
pub fn filter_selectivity_for_predicate(sheet: &View, e: u16) -> Estimate
    ensures { result ≡ filter_selectivity_for_predicate (viewed sheet.now) e }
{
    match expression_of(sheet, e) {
        Expression::Literal(value) => literal_estimate(sheet, value),
        Expression::Unary { op, expr } => unary_selectivity(sheet, op, expr),
        Expression::Binary { op, left, right } => binary_selectivity(sheet, op, left, right),
        Expression::Nary { op, first, count } => {
            nary_estimate(op, operand_product(sheet, op, Run { first, count }, e))
        }
        Expression::Like => like_estimate(sheet),
        Expression::ColumnRef(_) | Expression::Other => default_estimate(sheet),
    }
}

// The product over a run of operands. One that is not below the limit, which no accepted sheet has, has
// the default. A loop, and no `fold`: a closure in a cycle of calls needs clauses of its own.
#[cycle(predicate)]
#[tactic(auto, using(range::proofs::BitLaws::one_bits, crate::proofs::PredicateLaws::product_first, crate::proofs::PredicateLaws::product_next, crate::proofs::PredicateLaws::product_all, crate::proofs::PredicateLaws::operand_below, crate::proofs::PredicateLaws::operand_not_below))]
fn operand_product(sheet: &View, op: NaryOp, run: Run, limit: u16) -> f64
    ensures { result ≡ operand_product op (below (selectivity_by (viewed sheet.now)) (default_of (viewed sheet.now)) limit) f64_one (operands_of (viewed sheet.now) run.first run.count) }
{
    let mut product = 1.0;
    for i in usize::from(run.first)..run_end(sheet, run) {
        let o = operand_in(sheet, i);
        let operand = if o < limit {
            filter_selectivity_for_predicate(sheet, o)
        } else {
            default_estimate(sheet)
        };
        product *= operand_factor(op, operand.value);
    }
    product
}
