// binary_selectivity of the source's analysis.rs for two columns that are equated.
ghost use Rattle.std.specs.Prelude.{◌≡◌};
ghost use Rattle.records.specs.Columns.{column_profile_at};
ghost use Rattle.sheet.specs.Sheet.{viewed};
ghost use Rattle.comparison.specs.Columns.{self_selectivity, pair_selectivity, profiles_selectivity, columns_selectivity};

use estimate::Estimate;
use float::order::{clamp_unit, f64_max};
use lookup::profiles::{ProfilePlace, distinct_at, frequency_at, profile_place};
use range::selectivity::{default_estimate, non_null_fraction, unit_estimate};
use sheet::View;

#[tactic(auto, using(range::proofs::BitLaws::one_bits), unfolding(crate::specs::Columns::self_selectivity))]
fn self_selectivity(null_safe: bool, non_null: f64) -> Estimate
    ensures { result ≡ self_selectivity null_safe non_null }
{
    if null_safe {
        return unit_estimate(1.0);
    }
    unit_estimate(non_null)
}

#[tactic(auto, using(range::proofs::BitLaws::zero_bits, range::proofs::BitLaws::one_bits), unfolding(crate::specs::Columns::pair_selectivity))]
fn pair_selectivity(
    null_safe: bool,
    left_non_null: f64,
    right_non_null: f64,
    left_distinct: f64,
    right_distinct: f64,
) -> Estimate
    ensures { result ≡ pair_selectivity null_safe left_non_null right_non_null left_distinct right_distinct }
{
    let equal_non_null = left_non_null * right_non_null
        / f64_max(f64_max(left_distinct, right_distinct), 1.0);
    if null_safe {
        let null_match = (1.0 - left_non_null) * (1.0 - right_non_null);
        return unit_estimate(clamp_unit(equal_non_null + null_match));
    }
    unit_estimate(clamp_unit(equal_non_null + 0.0))
}

#[tactic(auto, unfolding(crate::specs::Columns::profiles_selectivity))]
fn profiles_selectivity(
    s: &[u8],
    null_safe: bool,
    same: bool,
    left: ProfilePlace,
    right: ProfilePlace,
) -> Estimate
    ensures { result ≡ profiles_selectivity null_safe same (column_profile_at s.now left.at) left.rows (column_profile_at s.now right.at) right.rows }
{
    let left_non_null = non_null_fraction(frequency_at(s, left.at), left.rows);
    if same {
        return self_selectivity(null_safe, left_non_null);
    }
    let right_non_null = non_null_fraction(frequency_at(s, right.at), right.rows);
    pair_selectivity(
        null_safe,
        left_non_null,
        right_non_null,
        distinct_at(s, left.at),
        distinct_at(s, right.at),
    )
}

#[tactic(auto, using(crate::proofs::PlaceLaws::profile_found, crate::proofs::PlaceLaws::profile_none), unfolding(crate::specs::Columns::columns_selectivity))]
pub fn columns_selectivity(sheet: &View, null_safe: bool, left: u16, right: u16) -> Estimate
    ensures { result ≡ columns_selectivity (viewed sheet.now) null_safe left right }
{
    let Some(first) = profile_place(sheet, left) else {
        return default_estimate(sheet);
    };
    let Some(second) = profile_place(sheet, right) else {
        return default_estimate(sheet);
    };
    profiles_selectivity(sheet.bytes, null_safe, left == right, first, second)
}
