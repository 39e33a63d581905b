// column_equality and column_equality_from_parts of the source's analysis.rs: two columns that are
// equated.
ghost use Rattle.std.specs.Prelude.{◌≡◌};
ghost use Rattle.sheet.specs.Sheet.{viewed};
ghost use Rattle.lookup.specs.Lookup.{expression_of};
ghost use Rattle.parts.specs.Parts.{is_equality, is_null_safe, column_equality_from_parts, column_equality};

use crate::column_ref;
use layout::{EXPRESSION_FIRST_OFFSET, EXPRESSION_OP_OFFSET, EXPRESSION_SECOND_OFFSET};
use le::reads::{byte_at, u16_at};
use lookup::numbers::{expression_kind, expression_place};
use records::expressions::{BinaryOp, ExpressionKind};
use sheet::View;

// Two columns that are equated.
#[derive(Clone, Copy)]
pub struct EqualColumns {
    pub left: u16,
    pub right: u16,
}

fn is_equality(op: BinaryOp) -> bool
    ensures { result ≡ is_equality op }
{
    matches!(op, BinaryOp::Eq | BinaryOp::IsNotDistinctFrom)
}

// Whether two nulls are equal under it.
pub fn is_null_safe(op: BinaryOp) -> bool
    ensures { result ≡ is_null_safe op }
{
    matches!(op, BinaryOp::IsNotDistinctFrom)
}

// The sides by their numbers. With the operator they are the fields of `Expression::Binary`, which a struct
// would hold a second time.
#[tactic(auto, unfolding(crate::specs::Parts::column_equality_from_parts))]
pub fn column_equality_from_parts(
    sheet: &View,
    op: BinaryOp,
    left: u16,
    right: u16,
) -> Option<EqualColumns>
    ensures { result ≡ column_equality_from_parts op (expression_of (viewed sheet.now) left) (expression_of (viewed sheet.now) right) }
{
    if !is_equality(op) {
        return None;
    }
    Some(EqualColumns {
        left: column_ref(sheet, left)?,
        right: column_ref(sheet, right)?,
    })
}

// Read by its offsets, as column_ref is.
#[tactic(auto, using(crate::proofs::KindLaws::equality_there, crate::proofs::KindLaws::equality_not), unfolding(crate::specs::Parts::column_equality))]
pub fn column_equality(sheet: &View, e: u16) -> Option<EqualColumns>
    ensures { result ≡ column_equality (viewed sheet.now) e }
{
    match expression_kind(sheet, e) {
        ExpressionKind::Binary => {
            let at = expression_place(sheet.sections, e);
            let op = BinaryOp::from(byte_at(sheet.bytes, at + EXPRESSION_OP_OFFSET));
            let left = u16_at(sheet.bytes, at + EXPRESSION_FIRST_OFFSET);
            let right = u16_at(sheet.bytes, at + EXPRESSION_SECOND_OFFSET);
            column_equality_from_parts(sheet, op, left, right)
        }
        _ => None,
    }
}
