// Expressions and operands by their numbers. Here and in the crates above, a sheet and an expression's
// number are two parameters: the number changes from call to call, and the sheet stays.
ghost use Rattle.std.specs.Prelude.{◌≡◌, ◌+◌, ◌<◌, ◌^◌, min, length};
ghost use Rattle.expression_rules.specs.Operands.{expression_place};
ghost use Rattle.sheet.specs.Sheet.{viewed};
ghost use Rattle.lookup.specs.Lookup.{expression_of, operand_in, expression_kind};

use layout::{COUNT_SIZE, EXPRESSION_SIZE, NUMBER_SIZE};
use le::reads::{byte_at, u16_at};
use records::expressions::{Expression, ExpressionKind, expression_at};
use sheet::{Sections, View};

#[tactic(auto, using(crate::proofs::LookupLaws::expressions_length))]
pub fn expression_count(sheet: &View) -> u16
    ensures { result ≡ length (viewed sheet.now).expressions }
{
    u16_at(sheet.bytes, usize::from(sheet.sections.expressions))
}

#[tactic(auto, using(crate::proofs::LookupLaws::expression_found))]
pub fn expression_of(sheet: &View, e: u16) -> Expression
    ensures { result ≡ expression_of (viewed sheet.now) e }
{
    if e < expression_count(sheet) {
        return expression_at(sheet.bytes, expression_place(sheet.sections, e));
    }
    Expression::Other
}

// Where an expression stands, if the section has it.
pub fn expression_place(q: Sections, e: u16) -> usize
    ensures { (result ≡ expression_place q.expressions e) × (result < 2 ^ 40) }
{
    usize::from(q.expressions) + COUNT_SIZE + EXPRESSION_SIZE * usize::from(e)
}

// What an expression is, as its first byte tells it.
#[tactic(auto, using(crate::proofs::LookupLaws::kind_there, crate::proofs::LookupLaws::kind_missing))]
pub fn expression_kind(sheet: &View, e: u16) -> ExpressionKind
    ensures { result ≡ expression_kind sheet.now.bytes.now sheet.now.sections e }
{
    if e < expression_count(sheet) {
        return ExpressionKind::from(byte_at(sheet.bytes, expression_place(sheet.sections, e)));
    }
    ExpressionKind::Other
}

#[tactic(auto, using(crate::proofs::LookupLaws::operands_length))]
pub fn operand_count(sheet: &View) -> u16
    ensures { result ≡ length (viewed sheet.now).operands }
{
    u16_at(sheet.bytes, usize::from(sheet.sections.operands))
}

// The operands of an n-ary expression: the number of the first, and how many there are.
#[derive(Clone, Copy)]
pub struct Run {
    pub first: u16,
    pub count: u16,
}

// Behind the last operand of a run.
pub fn run_end(sheet: &View, run: Run) -> usize
    ensures { result ≡ min (run.first + run.count) (length (viewed sheet.now).operands) }
{
    let end = usize::from(run.first) + usize::from(run.count);
    end.min(usize::from(operand_count(sheet)))
}

pub fn operand_in(sheet: &View, i: usize) -> u16
    requires { i < 2 ^ 32 }
    ensures { result ≡ operand_in sheet.now.bytes.now sheet.now.sections.operands i }
{
    u16_at(
        sheet.bytes,
        usize::from(sheet.sections.operands) + COUNT_SIZE + NUMBER_SIZE * i,
    )
}
