// IS NULL and IS NOT NULL in filter_selectivity_for_predicate of the source's analysis.rs.
ghost use Rattle.std.specs.Prelude.{◌≡◌};
ghost use Rattle.sheet.specs.Sheet.{viewed};
ghost use Rattle.lookup.specs.Lookup.{profile_and_rows};
ghost use Rattle.comparison.specs.Unary.{frequency_in, frequency_of, larger_rows, is_null_selectivity, is_not_null_selectivity, unary_of, unary_selectivity};

use estimate::Estimate;
use float::order::{clamp_unit, f64_max};
use lookup::profiles::{frequency_at, left_rows, profile_place, right_rows};
use parts::column_ref;
use range::selectivity::{default_estimate, unit_estimate};
use records::expressions::UnaryOp;
use sheet::View;

#[tactic(auto, using(crate::proofs::PlaceLaws::profile_found, crate::proofs::PlaceLaws::profile_none))]
fn column_frequency(sheet: &View, column: u16) -> Option<f64>
    ensures { result ≡ frequency_in (profile_and_rows (viewed sheet.now) column) }
{
    let found = profile_place(sheet, column)?;
    Some(frequency_at(sheet.bytes, found.at))
}

fn frequency_of(sheet: &View, column: Option<u16>) -> Option<f64>
    ensures { result ≡ frequency_of (viewed sheet.now) column }
{
    column_frequency(sheet, column?)
}

fn larger_rows(sheet: &View) -> f64
    ensures { result ≡ larger_rows (viewed sheet.now) }
{
    f64_max(f64_max(left_rows(sheet), right_rows(sheet)), 1.0)
}

#[tactic(auto, using(crate::proofs::TenthLaws::tenth_bits))]
fn is_null_selectivity(frequency: Option<f64>, rows: f64) -> f64
    ensures { result ≡ is_null_selectivity frequency rows }
{
    match frequency {
        Some(frequency) => 1.0 - clamp_unit(frequency / rows),
        None => 0.1,
    }
}

#[tactic(auto, using(crate::proofs::TenthLaws::nine_tenths_bits))]
fn is_not_null_selectivity(frequency: Option<f64>, rows: f64) -> f64
    ensures { result ≡ is_not_null_selectivity frequency rows }
{
    match frequency {
        Some(frequency) => clamp_unit(frequency / rows),
        None => 0.9,
    }
}

fn unary_of(sheet: &View, op: UnaryOp, frequency: Option<f64>, rows: f64) -> Estimate
    ensures { result ≡ unary_of (viewed sheet.now) op frequency rows }
{
    match op {
        UnaryOp::Not | UnaryOp::Negate => default_estimate(sheet),
        UnaryOp::IsNull => unit_estimate(is_null_selectivity(frequency, rows)),
        UnaryOp::IsNotNull => unit_estimate(is_not_null_selectivity(frequency, rows)),
    }
}

#[tactic(auto, unfolding(crate::specs::Unary::unary_selectivity))]
pub fn unary_selectivity(sheet: &View, op: UnaryOp, expr: u16) -> Estimate
    ensures { result ≡ unary_selectivity (viewed sheet.now) op expr }
{
    let frequency = frequency_of(sheet, column_ref(sheet, expr));
    unary_of(sheet, op, frequency, larger_rows(sheet))
}
