// What the sides of a binary expression are: column_ref of the source's analysis.rs, and in the
// modules its column_literal, column_equality and column_equality_from_parts.
#![tactic(auto)]

ghost use Rattle.std.specs.Prelude.{◌≡◌};
ghost use Rattle.sheet.specs.Sheet.{viewed};
ghost use Rattle.lookup.specs.Lookup.{expression_of};
ghost use Rattle.parts.specs.Parts.{column_ref};

use layout::EXPRESSION_FIRST_OFFSET;
use le::reads::u16_at;
use lookup::numbers::{expression_kind, expression_place};
use records::expressions::ExpressionKind;
use sheet::View;

pub mod equalities;
pub mod literals;

// Of the expression with a number. Read by its offset: the whole expression, with a literal's scalar,
// takes ten times the instructions.
#[tactic(auto, using(crate::proofs::KindLaws::column_there, crate::proofs::KindLaws::column_not))]
pub fn column_ref(sheet: &View, e: u16) -> Option<u16>
    ensures { result ≡ column_ref (expression_of (viewed sheet.now) e) }
{
    match expression_kind(sheet, e) {
        ExpressionKind::ColumnRef => {
            Some(u16_at(
                sheet.bytes,
                expression_place(sheet.sections, e) + EXPRESSION_FIRST_OFFSET,
            ))
        }
        _ => None,
    }
}
