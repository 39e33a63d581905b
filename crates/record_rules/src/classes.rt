// Classes.
ghost use Rattle.std.specs.Prelude.{◌≡◌, ◌<◌, ◌^◌};
ghost use Rattle.rules.specs.Rules.{first_refusal, outcome_number};
ghost use Rattle.record_rules.specs.Classes.{class_column_refusal, class_head_refusal, class_refusal};

use crate::columns::column_number_refusal;
use crate::fields::whole;
use estimate::bytes::estimate_refusal;
use layout::{CLASS_DISTINCT_OFFSET, CLASS_HEAD_SIZE, CLASS_LEAST, CLASS_MOST, NUMBER_SIZE};
use le::reads::u16_at;
use rules::{Refusal, ask};

#[tactic(auto, unfolding(crate::specs::Classes::class_column_refusal))]
fn class_column_refusal(s: &[u8], first: usize, j: usize) -> Result<(), Refusal>
    requires { (first < 2 ^ 40) × (j < 2 ^ 16) }
    ensures { outcome_number result ≡ class_column_refusal s.now first j }
{
    let at = first + NUMBER_SIZE * j;
    whole(NUMBER_SIZE, s, at)?;
    column_number_refusal(NUMBER_SIZE, s, j, at)
}

#[tactic(auto, using(rules::proofs::LoopLaws::first_steps))]
fn class_columns_refusal(s: &[u8], first: usize, n: usize) -> Result<(), Refusal>
    requires { (first < 2 ^ 40) × (n < 2 ^ 16) }
    ensures { outcome_number result ≡ first_refusal (class_column_refusal s.now first) 0 n }
{
    // A loop and no chain: `?` ends it at the first refusal, and iterators have no `try_for_each` here.
    for j in 0..n {
        class_column_refusal(s, first, j)?;
    }
    Ok(())
}

#[tactic(auto, unfolding(crate::specs::Classes::class_head_refusal))]
fn class_head_refusal(s: &[u8], at: usize) -> Result<(), Refusal>
    requires { at < 2 ^ 60 }
    ensures { outcome_number result ≡ class_head_refusal s.now at }
{
    whole(CLASS_HEAD_SIZE, s, at)?;
    let n = usize::from(u16_at(s, at));
    ask((CLASS_LEAST..=CLASS_MOST).contains(&n), Refusal::Count)?;
    estimate_refusal(s, at + CLASS_DISTINCT_OFFSET)
}

#[tactic(auto, unfolding(crate::specs::Classes::class_refusal))]
pub fn class_refusal(s: &[u8], at: usize) -> Result<(), Refusal>
    requires { at < 2 ^ 39 }
    ensures { outcome_number result ≡ class_refusal s.now at }
{
    class_head_refusal(s, at)?;
    class_columns_refusal(s, at + CLASS_HEAD_SIZE, usize::from(u16_at(s, at)))
}
