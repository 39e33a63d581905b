// column_literal of the source's analysis.rs: a column beside a literal. An operator and the numbers of two
// sides are the fields of `Expression::Binary`, which a struct would hold a second time.
ghost use Rattle.std.specs.Prelude.{◌≡◌, ◌+◌, ◌<◌, ◌^◌, option_map};
ghost use Rattle.layout.specs.Places.{expression_scalar_offset};
ghost use Rattle.expression_rules.specs.Operands.{expression_place};
ghost use Rattle.parts.specs.Parts.{reversed, column_beside_place, column_literal_place};

use crate::column_ref;
use layout::EXPRESSION_SCALAR_OFFSET;
use lookup::numbers::{expression_kind, expression_place};
use records::expressions::{BinaryOp, ExpressionKind};
use sheet::{Sections, View};

// A column beside a literal, by where the literal stands in the sheet. The operator is as it stands
// when the column comes first. No sheet comes near the bound.
#[derive(Clone, Copy)]
pub struct PlacedLiteral {
    pub column: u16,
    pub at: usize,
    pub op: BinaryOp,
    ghost near: { at < 2 ^ 40 },
}

// The operator with its sides exchanged.
fn reversed(op: BinaryOp) -> BinaryOp
    ensures { result ≡ reversed op }
{
    match op {
        BinaryOp::Lt => BinaryOp::Gt,
        BinaryOp::LtEq => BinaryOp::GtEq,
        BinaryOp::Gt => BinaryOp::Lt,
        BinaryOp::GtEq => BinaryOp::LtEq,
        _ => op,
    }
}

// Where the scalar of a literal stands.
fn literal_place(q: Sections, e: u16) -> usize
    ensures { (result ≡ expression_place q.expressions e + expression_scalar_offset) × (result < 2 ^ 40) }
{
    expression_place(q, e) + EXPRESSION_SCALAR_OFFSET
}

// Of two expressions by their numbers.
#[tactic(auto, using(crate::proofs::KindLaws::no_column, crate::proofs::KindLaws::no_literal, crate::proofs::KindLaws::both_there))]
fn column_beside(sheet: &View, op: BinaryOp, column: u16, literal: u16) -> Option<PlacedLiteral>
    ensures { option_map (λ pair. (pair.column, pair.at, pair.op)) result ≡ column_beside_place sheet.now.bytes.now sheet.now.sections op column literal }
{
    let column = column_ref(sheet, column)?;
    let ExpressionKind::Literal = expression_kind(sheet, literal) else {
        return None;
    };
    Some(PlacedLiteral {
        column,
        at: literal_place(sheet.sections, literal),
        op,
    })
}

#[tactic(auto, using(crate::proofs::KindLaws::place_turned, crate::proofs::KindLaws::place_as_is))]
pub fn column_literal(sheet: &View, op: BinaryOp, left: u16, right: u16) -> Option<PlacedLiteral>
    ensures { option_map (λ pair. (pair.column, pair.at, pair.op)) result ≡ column_literal_place sheet.now.bytes.now sheet.now.sections op left right }
{
    match expression_kind(sheet, left) {
        ExpressionKind::Literal => column_beside(sheet, reversed(op), right, left),
        _ => column_beside(sheet, op, left, right),
    }
}
