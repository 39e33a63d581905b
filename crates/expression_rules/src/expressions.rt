// Expressions.
ghost use Rattle.std.specs.Prelude.{◌≡◌, ◌<◌, ◌^◌};
ghost use Rattle.rules.specs.Rules.{outcome_number};
ghost use Rattle.records.specs.Expressions.{kind_code};
ghost use Rattle.expression_rules.specs.Expressions.{last_op, first_field_refusal, second_field_refusal, literal_refusal, expression_refusal};

use layout::{
    COLUMN_LIMIT, EXPRESSION_FIRST_OFFSET, EXPRESSION_OP_OFFSET, EXPRESSION_SCALAR_OFFSET,
    EXPRESSION_SECOND_OFFSET, EXPRESSION_SIZE, SCALAR_SIZE,
};
use le::reads::{byte_at, u16_at};
use record_rules::fields::whole;
use records::expressions::ExpressionKind;
use rules::{Refusal, ask};
use scalar_bytes::reads::{ScalarPlace, scalar_refusal, zeros_at};

// The number of the last kind, `Other`. By the number: `From` gives every number a kind, so there is no `TryFrom`.
const LAST_KIND: u8 = 6;

// The number of a kind's last operator.
#[tactic(auto, unfolding(crate::specs::Expressions::last_op))]
fn last_op(kind: ExpressionKind) -> u8
    ensures { result ≡ last_op (kind_code kind) }
{
    match kind {
        ExpressionKind::Unary => 3,
        ExpressionKind::Binary => 10,
        ExpressionKind::Nary => 1,
        _ => 0,
    }
}

// Field a of expression i, where the next run of operands starts at run.
#[tactic(auto, unfolding(crate::specs::Expressions::first_field_refusal))]
fn first_field_refusal(kind: ExpressionKind, i: usize, run: usize, a: usize) -> Result<(), Refusal>
    ensures { outcome_number result ≡ first_field_refusal (kind_code kind) i run a }
{
    match kind {
        ExpressionKind::ColumnRef => ask(a < COLUMN_LIMIT, Refusal::Order),
        ExpressionKind::Unary | ExpressionKind::Binary => ask(a < i, Refusal::Reference),
        ExpressionKind::Nary => ask(a == run, Refusal::OperandRun),
        _ => ask(a == 0, Refusal::Code),
    }
}

// Field b of expression i.
#[tactic(auto, unfolding(crate::specs::Expressions::second_field_refusal))]
fn second_field_refusal(kind: ExpressionKind, i: usize, b: usize) -> Result<(), Refusal>
    ensures { outcome_number result ≡ second_field_refusal (kind_code kind) i b }
{
    match kind {
        ExpressionKind::Binary => ask(b < i, Refusal::Reference),
        ExpressionKind::Nary => Ok(()),
        _ => ask(b == 0, Refusal::Code),
    }
}

// Only a literal has a scalar.
#[tactic(auto, unfolding(crate::specs::Expressions::literal_refusal))]
fn literal_refusal(kind: ExpressionKind, s: &[u8], at: usize) -> Result<(), Refusal>
    requires { at < 2 ^ 60 }
    ensures { outcome_number result ≡ literal_refusal (kind_code kind) s.now at }
{
    if kind == ExpressionKind::Literal {
        return scalar_refusal(ScalarPlace::Literal, s, at);
    }
    ask(zeros_at(SCALAR_SIZE, s, at), Refusal::Code)
}

// Expression i, where the next run of operands starts at run.
#[tactic(auto, using(records::proofs::KindLaws::kind_back), unfolding(crate::specs::Expressions::expression_refusal))]
pub fn expression_refusal(s: &[u8], run: usize, i: usize, at: usize) -> Result<(), Refusal>
    requires { at < 2 ^ 59 }
    ensures { outcome_number result ≡ expression_refusal s.now run i at }
{
    whole(EXPRESSION_SIZE, s, at)?;
    let code = byte_at(s, at);
    ask(code <= LAST_KIND, Refusal::Code)?;
    let kind = ExpressionKind::from(code);
    ask(
        byte_at(s, at + EXPRESSION_OP_OFFSET) <= last_op(kind),
        Refusal::Code,
    )?;
    let first = usize::from(u16_at(s, at + EXPRESSION_FIRST_OFFSET));
    first_field_refusal(kind, i, run, first)?;
    let second = usize::from(u16_at(s, at + EXPRESSION_SECOND_OFFSET));
    second_field_refusal(kind, i, second)?;
    literal_refusal(kind, s, at + EXPRESSION_SCALAR_OFFSET)
}
