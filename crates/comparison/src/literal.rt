// binary_selectivity of the source's analysis.rs for a column and a literal. Their places are found in two
// other crates; `Compared` holds both.
ghost use Rattle.std.specs.Prelude.{◌≡◌};
ghost use Rattle.scalar.specs.Types.{is_null};
ghost use Rattle.scalar_bytes.specs.Reading.{scalar_at};
ghost use Rattle.records.specs.Columns.{column_profile_at};
ghost use Rattle.sheet.specs.Sheet.{viewed};
ghost use Rattle.comparison.specs.Literal.{equality_selectivity, equality_part, range_part, comparison_value, profile_selectivity, literal_selectivity};

use estimate::Estimate;
use float::order::f64_max;
use le::reads::byte_at;
use lookup::profiles::{ProfilePlace, distinct_at, frequency_at, profile_place};
use parts::literals::PlacedLiteral;
use range::range_selectivity;
use range::selectivity::{
    default_estimate, default_predicate_selectivity, non_null_fraction, range_fallback_selectivity,
    unit_estimate,
};
use records::expressions::BinaryOp;
use scalar_bytes::reads::scalar_at;
use scalar_bytes::tags::{BOOLEAN, DATE32, DAY_TIME, MONTH_DAY_NANO};
use sheet::View;
use sketch::frequent_value_selectivity;

fn equality_selectivity(frequent: Option<f64>, non_null: f64, distinct: f64) -> f64
    ensures { result ≡ equality_selectivity frequent non_null distinct }
{
    frequent.unwrap_or(non_null / f64_max(distinct, 1.0))
}

// Whether the scalar at a place is Null.
#[tactic(auto, unfolding(scalar_bytes::specs::Reading::scalar_at))]
fn is_null_at(s: &[u8], at: usize) -> bool
    ensures { result ≡ is_null (scalar_at s.now at) }
{
    !matches!(byte_at(s, at), BOOLEAN..=DATE32 | MONTH_DAY_NANO | DAY_TIME)
}

// A column's profile and a literal, by their places, and the part of the rows that is not null.
#[derive(Clone, Copy)]
struct Compared {
    profile: ProfilePlace,
    literal: PlacedLiteral,
    non_null: f64,
}

// That the column equals the literal.
#[tactic(auto, unfolding(sheet::specs::Sheet::sheet_of))]
fn equality_part(sheet: &View, x: Compared) -> f64
    ensures { result ≡ equality_part (viewed sheet.now) (column_profile_at sheet.now.bytes.now x.profile.at) (scalar_at sheet.now.bytes.now x.literal.at) x.non_null }
{
    let value = scalar_at(sheet.bytes, x.literal.at);
    let frequent = frequent_value_selectivity(
        sheet.bytes,
        sheet.sections.sketches,
        x.profile.at,
        value,
    );
    equality_selectivity(frequent, x.non_null, distinct_at(sheet.bytes, x.profile.at))
}

fn range_part(sheet: &View, x: Compared) -> f64
    ensures { result ≡ range_part (viewed sheet.now).settings.range_fallback_selectivity (column_profile_at sheet.now.bytes.now x.profile.at) (scalar_at sheet.now.bytes.now x.literal.at) x.literal.op x.non_null }
{
    let fallback = range_fallback_selectivity(sheet);
    range_selectivity(
        sheet.bytes,
        x.profile.at,
        x.literal.at,
        x.literal.op,
        fallback,
    )
    .value
        * x.non_null
}

// The value before it is held to its bounds. The sketch is asked only by the operators that need it.
#[tactic(auto, using(range::proofs::BitLaws::zero_bits), unfolding(crate::specs::Literal::comparison_value))]
fn comparison_value(sheet: &View, x: Compared) -> f64
    ensures { result ≡ comparison_value (viewed sheet.now) (column_profile_at sheet.now.bytes.now x.profile.at) (scalar_at sheet.now.bytes.now x.literal.at) x.literal.op x.non_null (equality_part (viewed sheet.now) (column_profile_at sheet.now.bytes.now x.profile.at) (scalar_at sheet.now.bytes.now x.literal.at) x.non_null) }
{
    match x.literal.op {
        BinaryOp::Eq => equality_part(sheet, x),
        BinaryOp::NotEq => f64_max(x.non_null - equality_part(sheet, x), 0.0),
        BinaryOp::Lt | BinaryOp::LtEq | BinaryOp::Gt | BinaryOp::GtEq => { range_part(sheet, x) }
        _ => default_predicate_selectivity(sheet),
    }
}

// Null is matched by no operator.
#[tactic(auto, using(range::proofs::BitLaws::zero_bits), unfolding(crate::specs::Literal::profile_selectivity))]
fn profile_selectivity(sheet: &View, found: ProfilePlace, literal: PlacedLiteral) -> Estimate
    ensures { result ≡ profile_selectivity (viewed sheet.now) (column_profile_at sheet.now.bytes.now found.at) found.rows (scalar_at sheet.now.bytes.now literal.at) literal.op }
{
    if is_null_at(sheet.bytes, literal.at) {
        return Estimate::exact(0.0);
    }
    let compared = Compared {
        profile: found,
        literal,
        non_null: non_null_fraction(frequency_at(sheet.bytes, found.at), found.rows),
    };
    unit_estimate(comparison_value(sheet, compared))
}

// A column against the literal beside it.
#[tactic(auto, using(crate::proofs::PlaceLaws::profile_found, crate::proofs::PlaceLaws::profile_none), unfolding(crate::specs::Literal::literal_selectivity))]
pub fn literal_selectivity(sheet: &View, literal: PlacedLiteral) -> Estimate
    ensures { result ≡ literal_selectivity (viewed sheet.now) literal.column (scalar_at sheet.now.bytes.now literal.at) literal.op }
{
    match profile_place(sheet, literal.column) {
        Some(found) => profile_selectivity(sheet, found, literal),
        None => default_estimate(sheet),
    }
}
