// Operands and conjuncts: numbers of expressions.
ghost use Rattle.std.specs.Prelude.{◌≡◌, ◌<◌, ◌≤◌, ◌^◌};
ghost use Rattle.le.specs.Fields.{u16_at};
ghost use Rattle.rules.specs.Rules.{first_refusal, outcome_number};
ghost use Rattle.expression_rules.specs.Operands.{expression_place, is_nary, run_length, runs_before, run_holds, nary_from, fill_refusal, same_operand_refusal, shared_refusal, operand_refusal, conjunct_refusal};

use layout::{
    COUNT_SIZE, EXPRESSION_FIRST_OFFSET, EXPRESSION_SECOND_OFFSET, EXPRESSION_SIZE, NUMBER_SIZE,
};
use le::reads::{byte_at, u16_at};
use record_rules::fields::whole;
use records::expressions::ExpressionKind;
use rules::{Refusal, ask};

// The bytes of a sheet, and where the count of its expressions stands.
#[derive(Clone, Copy)]
pub struct Expressions<'a> {
    pub s: &'a [u8],
    pub start: usize,
    pub ghost near: { start < 2 ^ 40 },
}

fn expression_place(expressions: &Expressions, e: usize) -> usize
    requires { e < 2 ^ 50 }
    ensures { (result ≡ expression_place expressions.now.start e) × (result < 2 ^ 56) }
{
    expressions.start + COUNT_SIZE + EXPRESSION_SIZE * e
}

// The kind alone, and below the two fields of a run alone: `expression_at` would also read what nobody asks for here.
fn is_nary(s: &[u8], at: usize) -> bool
    ensures { result ≡ is_nary s.now at }
{
    ExpressionKind::from(byte_at(s, at)) == ExpressionKind::Nary
}

// How many operands the expression at a place has.
pub fn run_length(s: &[u8], at: usize) -> usize
    requires { at < 2 ^ 60 }
    ensures { (result ≡ run_length s.now at) × (result < 2 ^ 16) }
{
    if is_nary(s, at) {
        return usize::from(u16_at(s, at + EXPRESSION_SECOND_OFFSET));
    }
    0
}

// How many operands the first n expressions have. The slice is handed in itself: that the sum fits asks for the range of
// its bytes, and from a slice in the struct the proof did not close.
#[tactic(auto, unfolding(crate::specs::Operands::runs_before))]
pub fn runs_before(s: &[u8], start: usize, n: usize) -> usize
    requires { (start < 2 ^ 40) × (n < 2 ^ 16) }
    ensures { result ≡ runs_before s.now start n }
{
    let expressions = Expressions { s, start };
    (0..n)
        .map(|e| run_length(s, expression_place(&expressions, e)))
        .sum()
}

// There are n operands: the runs fill them.
#[tactic(auto, unfolding(crate::specs::Operands::fill_refusal))]
pub fn fill_refusal(expressions: &Expressions, n: u16) -> Result<(), Refusal>
    ensures { outcome_number result ≡ fill_refusal expressions.now.s.now expressions.now.start n }
{
    let named = usize::from(u16_at(expressions.s, expressions.start));
    ask(
        usize::from(n) == runs_before(expressions.s, expressions.start, named),
        Refusal::OperandRun,
    )
}

// Whether expression e is n-ary and operand i stands in its run.
fn run_holds(expressions: &Expressions, i: usize, e: usize) -> bool
    requires { e < 2 ^ 50 }
    ensures { result ≡ run_holds expressions.now.s.now expressions.now.start i e }
{
    let s = expressions.s;
    let at = expression_place(expressions, e);
    let first = usize::from(u16_at(s, at + EXPRESSION_FIRST_OFFSET));
    let end = first + usize::from(u16_at(s, at + EXPRESSION_SECOND_OFFSET));
    is_nary(s, at) && (first..end).contains(&i)
}

// The n-ary expression in whose run operand i stands, looked for from the e-th on; the number of
// expressions where there is none.
pub fn nary_from(expressions: &Expressions, i: usize, e: usize) -> usize
    requires { e ≤ u16_at expressions.now.s.now expressions.now.start }
    ensures { (result ≡ nary_from expressions.now.s.now expressions.now.start i e) × ((result ≤ u16_at expressions.now.s.now expressions.now.start) × (result < 2 ^ 16)) }
{
    let n = usize::from(u16_at(expressions.s, expressions.start));
    (e..n).find(|&f| run_holds(expressions, i, f)).unwrap_or(n)
}

// None of the first i operands names expression o.
fn named_before_refusal(s: &[u8], first: usize, i: usize, o: u16) -> Result<(), Refusal>
    requires { (first < 2 ^ 40) × (i < 2 ^ 16) }
    ensures { outcome_number result ≡ first_refusal (same_operand_refusal s.now first o) 0 i }
{
    ask(
        !(0..i).any(|j| u16_at(s, first + NUMBER_SIZE * j) == o),
        Refusal::OperandRun,
    )
}

#[tactic(auto, unfolding(crate::specs::Operands::shared_refusal))]
fn shared_refusal(expressions: &Expressions, first: usize, i: usize, o: u16) -> Result<(), Refusal>
    requires { (first < 2 ^ 40) × (i < 2 ^ 16) }
    ensures { outcome_number result ≡ shared_refusal expressions.now.s.now expressions.now.start first i o }
{
    if is_nary(expressions.s, expression_place(expressions, usize::from(o))) {
        named_before_refusal(expressions.s, first, i, o)
    } else {
        Ok(())
    }
}

// Operand i, which stands in the run of expression owner; the first operand is at first.
#[tactic(auto, unfolding(crate::specs::Operands::operand_refusal))]
pub fn operand_refusal(
    expressions: &Expressions,
    owner: usize,
    first: usize,
    i: usize,
) -> Result<(), Refusal>
    requires { (first < 2 ^ 40) × (i < 2 ^ 16) }
    ensures { outcome_number result ≡ operand_refusal expressions.now.s.now expressions.now.start owner first i }
{
    let s = expressions.s;
    let at = first + NUMBER_SIZE * i;
    whole(NUMBER_SIZE, s, at)?;
    let o = u16_at(s, at);
    ask(
        o < u16_at(s, expressions.start) && usize::from(o) < owner,
        Refusal::Reference,
    )?;
    shared_refusal(expressions, first, i, o)
}

// The place of the expressions' count may be any here: `Expressions` would ask that it is near.
#[tactic(auto, unfolding(crate::specs::Operands::conjunct_refusal))]
pub fn conjunct_refusal(s: &[u8], expressions: usize, at: usize) -> Result<(), Refusal>
    ensures { outcome_number result ≡ conjunct_refusal s.now expressions at }
{
    whole(NUMBER_SIZE, s, at)?;
    ask(u16_at(s, at) < u16_at(s, expressions), Refusal::Reference)
}
