// Estimates of selectivities, and the settings that they go by.
ghost use Rattle.std.specs.Prelude.{◌≡◌};
ghost use Rattle.sheet.specs.Sheet.{viewed};
ghost use Rattle.range.specs.Selectivity.{unit_estimate, default_estimate, non_null_fraction};

use estimate::Estimate;
use float::order::clamp_unit;
use layout::{DEFAULT_PREDICATE_SELECTIVITY_OFFSET, RANGE_FALLBACK_SELECTIVITY_OFFSET};
use lookup::settings::setting_at;
use sheet::View;

#[tactic(auto, using(crate::proofs::BitLaws::zero_bits, crate::proofs::BitLaws::one_bits), unfolding(crate::specs::Selectivity::unit_estimate))]
pub fn unit_estimate(value: f64) -> Estimate
    ensures { result ≡ unit_estimate value }
{
    Estimate::derived(value, Some(0.0), Some(1.0))
}

#[tactic(auto, unfolding(sheet::specs::Sheet::sheet_of, sheet::specs::Order::record_at, records::specs::Settings::settings_at))]
pub fn default_predicate_selectivity(sheet: &View) -> f64
    ensures { result ≡ (viewed sheet.now).settings.default_predicate_selectivity }
{
    setting_at(sheet, DEFAULT_PREDICATE_SELECTIVITY_OFFSET)
}

#[tactic(auto, unfolding(sheet::specs::Sheet::sheet_of, sheet::specs::Order::record_at, records::specs::Settings::settings_at))]
pub fn range_fallback_selectivity(sheet: &View) -> f64
    ensures { result ≡ (viewed sheet.now).settings.range_fallback_selectivity }
{
    setting_at(sheet, RANGE_FALLBACK_SELECTIVITY_OFFSET)
}

#[tactic(auto, unfolding(crate::specs::Selectivity::default_estimate))]
pub fn default_estimate(sheet: &View) -> Estimate
    ensures { result ≡ default_estimate (viewed sheet.now) }
{
    unit_estimate(default_predicate_selectivity(sheet))
}

#[tactic(auto, using(crate::proofs::BitLaws::zero_bits), unfolding(crate::specs::Selectivity::non_null_fraction))]
pub fn non_null_fraction(frequency: f64, rows: f64) -> f64
    ensures { result ≡ non_null_fraction frequency rows }
{
    if rows <= 0.0 {
        return 0.0;
    }
    clamp_unit(frequency / rows)
}
