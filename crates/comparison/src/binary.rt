// binary_selectivity of the source's analysis.rs.
ghost use Rattle.std.specs.Prelude.{◌≡◌};
ghost use Rattle.sheet.specs.Sheet.{viewed};
ghost use Rattle.comparison.specs.Binary.{equality_or_default, binary_selectivity};

use crate::columns::columns_selectivity;
use crate::literal::literal_selectivity;
use estimate::Estimate;
use parts::equalities::{EqualColumns, column_equality_from_parts, is_null_safe};
use parts::literals::column_literal;
use range::selectivity::default_estimate;
use records::expressions::BinaryOp;
use sheet::View;

fn equality_or_default(sheet: &View, op: BinaryOp, columns: Option<EqualColumns>) -> Estimate
    ensures { result ≡ equality_or_default (viewed sheet.now) op columns }
{
    match columns {
        None => default_estimate(sheet),
        Some(columns) => {
            columns_selectivity(sheet, is_null_safe(op), columns.left, columns.right)
        }
    }
}

// A literal beside a column goes before two columns. The operator and the two numbers are the fields of
// `Expression::Binary`, which a struct would hold a second time.
#[tactic(auto, using(crate::proofs::PlaceLaws::literal_found, crate::proofs::PlaceLaws::literal_none), unfolding(crate::specs::Binary::binary_selectivity))]
pub fn binary_selectivity(sheet: &View, op: BinaryOp, left: u16, right: u16) -> Estimate
    ensures { result ≡ binary_selectivity (viewed sheet.now) op left right }
{
    if let Some(pair) = column_literal(sheet, op, left, right) {
        return literal_selectivity(sheet, pair);
    }
    equality_or_default(
        sheet,
        op,
        column_equality_from_parts(sheet, op, left, right),
    )
}
