// Rows and settings.
ghost use Rattle.std.specs.Prelude.{◌≡◌, ◌<◌, ◌^◌};
ghost use Rattle.rules.specs.Rules.{outcome_number};
ghost use Rattle.record_rules.specs.Rows.{rows_refusal, selectivity_lawful, setting_lawful, setting_refusal};

use crate::fields::whole;
use estimate::bytes::{estimate_refusal, figure_lawful};
use float::ranges::zero_or_between;
use layout::{ESTIMATE_SIZE, FLOAT_SIZE};
use le::floats::f64_at;
use rules::{Refusal, ask};

#[tactic(auto, unfolding(crate::specs::Rows::rows_refusal))]
pub fn rows_refusal(s: &[u8], at: usize) -> Result<(), Refusal>
    requires { at < 2 ^ 60 }
    ensures { outcome_number result ≡ rows_refusal s.now at }
{
    whole(ESTIMATE_SIZE, s, at)?;
    estimate_refusal(s, at)
}

fn selectivity_lawful(x: f64) -> bool
    ensures { result ≡ selectivity_lawful x }
{
    zero_or_between(5.421010862427522e-20, 1.0, x)
}

// The first three settings are selectivities.
fn setting_lawful(i: usize, x: f64) -> bool
    ensures { result ≡ setting_lawful i x }
{
    if i < 3 {
        selectivity_lawful(x)
    } else {
        figure_lawful(x)
    }
}

#[tactic(auto, unfolding(crate::specs::Rows::setting_refusal))]
pub fn setting_refusal(s: &[u8], i: usize, at: usize) -> Result<(), Refusal>
    ensures { outcome_number result ≡ setting_refusal s.now i at }
{
    whole(FLOAT_SIZE, s, at)?;
    ask(setting_lawful(i, f64_at(s, at)), Refusal::Figure)
}
