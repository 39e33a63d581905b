// What needs no operand's estimate.
ghost use Rattle.std.specs.Prelude.{◌≡◌};
ghost use Rattle.range.specs.Selectivity.{unit_estimate};
ghost use Rattle.sheet.specs.Sheet.{viewed};
ghost use Rattle.predicate.specs.Predicate.{truth_estimate, literal_estimate};

use estimate::Estimate;
use layout::LIKE_SELECTIVITY_OFFSET;
use lookup::settings::setting_at;
use range::selectivity::{default_estimate, unit_estimate};
use scalar::Scalar;
use sheet::View;

fn truth_estimate(b: bool) -> Estimate
    ensures { result ≡ truth_estimate b }
{
    if b {
        Estimate::exact(1.0)
    } else {
        Estimate::exact(0.0)
    }
}

#[tactic(auto, unfolding(crate::specs::Predicate::literal_estimate))]
pub fn literal_estimate(sheet: &View, value: Scalar) -> Estimate
    ensures { result ≡ literal_estimate (viewed sheet.now) value }
{
    match value {
        Scalar::Boolean(b) => truth_estimate(b),
        _ => default_estimate(sheet),
    }
}

#[tactic(auto, unfolding(sheet::specs::Sheet::sheet_of, sheet::specs::Order::record_at, records::specs::Settings::settings_at))]
fn like_selectivity(sheet: &View) -> f64
    ensures { result ≡ (viewed sheet.now).settings.like_selectivity }
{
    setting_at(sheet, LIKE_SELECTIVITY_OFFSET)
}

pub fn like_estimate(sheet: &View) -> Estimate
    ensures { result ≡ unit_estimate (viewed sheet.now).settings.like_selectivity }
{
    unit_estimate(like_selectivity(sheet))
}
