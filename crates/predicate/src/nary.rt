// What an And and an Or make of their operands' figures.
ghost use Rattle.std.specs.Prelude.{◌≡◌};
ghost use Rattle.predicate.specs.Predicate.{operand_factor, nary_estimate};

use estimate::Estimate;
use range::selectivity::unit_estimate;
use records::expressions::NaryOp;

#[tactic(auto, using(range::proofs::BitLaws::one_bits))]
pub fn operand_factor(op: NaryOp, selected: f64) -> f64
    ensures { result ≡ operand_factor op selected }
{
    match op {
        NaryOp::And => selected,
        NaryOp::Or => 1.0 - selected,
    }
}

#[tactic(auto, using(range::proofs::BitLaws::one_bits))]
pub fn nary_estimate(op: NaryOp, product: f64) -> Estimate
    ensures { result ≡ nary_estimate op product }
{
    match op {
        NaryOp::And => unit_estimate(product),
        NaryOp::Or => unit_estimate(1.0 - product),
    }
}
