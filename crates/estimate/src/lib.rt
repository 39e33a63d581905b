// The source's Estimate: a value, optional bounds and where it comes from.
#![tactic(auto)]

ghost use Rattle.std.specs.Prelude.{◌≡◌};
ghost use Rattle.estimate.specs.Estimates.{estimate_of, lower_bound, upper_bound, raised, lowered, clamp_to_bounds, exact, derived, default, max_by_value, min_by_value};

use float::order::{f64_max, f64_min};

pub mod bytes;

#[derive(Clone, Copy, Debug, PartialEq, Eq)]
pub enum EstimateSource {
    Exact,
    Catalog,
    Sketch,
    Derived,
    Default,
}

// The form is document 01's: a bound is a flag and a number, which is +0 where there is none.
// No options inside: they make it half as large again, and a state holds 128.
#[derive(Clone, Copy)]
pub struct Estimate {
    pub value: f64,
    pub lower: f64,
    pub upper: f64,
    pub has_lower: bool,
    pub has_upper: bool,
    pub source: EstimateSource,
}

// From bounds that are options.
pub fn estimate_of(
    value: f64,
    lower: Option<f64>,
    upper: Option<f64>,
    source: EstimateSource,
) -> Estimate
    ensures { result ≡ estimate_of value lower upper source }
{
    Estimate {
        value,
        lower: lower.unwrap_or(0.0),
        upper: upper.unwrap_or(0.0),
        has_lower: lower.is_some(),
        has_upper: upper.is_some(),
        source,
    }
}

// value, at least the lower bound where there is one.
fn raised(value: f64, lower: Option<f64>) -> f64
    ensures { result ≡ raised value lower }
{
    match lower {
        Some(lower) => f64_max(value, lower),
        None => value,
    }
}

// value, at most the upper bound where there is one.
fn lowered(value: f64, upper: Option<f64>) -> f64
    ensures { result ≡ lowered value upper }
{
    match upper {
        Some(upper) => f64_min(value, upper),
        None => value,
    }
}

#[tactic(auto, unfolding(crate::specs::Estimates::clamp_to_bounds))]
pub fn clamp_to_bounds(value: f64, lower: Option<f64>, upper: Option<f64>) -> f64
    ensures { result ≡ clamp_to_bounds value lower upper }
{
    lowered(raised(f64_max(value, 0.0), lower), upper)
}

impl Estimate {
    #[tactic(auto, unfolding(crate::specs::Estimates::exact))]
    pub fn exact(value: f64) -> Estimate
        ensures { result ≡ exact value }
    {
        estimate_of(value, Some(value), Some(value), EstimateSource::Exact)
    }

    #[tactic(auto, unfolding(crate::specs::Estimates::derived))]
    pub fn derived(value: f64, lower: Option<f64>, upper: Option<f64>) -> Estimate
        ensures { result ≡ derived value lower upper }
    {
        estimate_of(
            clamp_to_bounds(value, lower, upper),
            lower,
            upper,
            EstimateSource::Derived,
        )
    }

    #[tactic(auto, unfolding(crate::specs::Estimates::default))]
    pub fn default(value: f64) -> Estimate
        ensures { result ≡ default value }
    {
        estimate_of(value, Some(0.0), None, EstimateSource::Default)
    }

    pub fn lower_bound(self) -> Option<f64>
        ensures { result ≡ lower_bound self }
    {
        self.has_lower.then_some(self.lower)
    }

    pub fn upper_bound(self) -> Option<f64>
        ensures { result ≡ upper_bound self }
    {
        self.has_upper.then_some(self.upper)
    }

    #[tactic(auto, unfolding(crate::specs::Estimates::max_by_value))]
    pub fn max_by_value(self, other: Estimate) -> Estimate
        ensures { result ≡ max_by_value self other }
    {
        if self.value >= other.value {
            self
        } else {
            other
        }
    }

    #[tactic(auto, unfolding(crate::specs::Estimates::min_by_value))]
    pub fn min_by_value(self, other: Estimate) -> Estimate
        ensures { result ≡ min_by_value self other }
    {
        if self.value <= other.value {
            self
        } else {
            other
        }
    }
}
