// Columns' profiles.
ghost use Rattle.std.specs.Prelude.{◌≡◌, ◌<◌, ◌^◌};
ghost use Rattle.rules.specs.Rules.{outcome_number};
ghost use Rattle.record_rules.specs.Columns.{column_number_refusal, base_refusal, sketch_number_refusal, column_refusal};

use crate::fields::{ascending, is_none, whole};
use estimate::bytes::estimate_refusal;
use layout::{
    BASE_COLUMN_OFFSET, COLUMN_BASE_OFFSET, COLUMN_DISTINCT_OFFSET, COLUMN_FREQUENCY_OFFSET,
    COLUMN_LIMIT, COLUMN_LOWER_OFFSET, COLUMN_SIZE, COLUMN_SKETCH_OFFSET, COLUMN_UPPER_OFFSET,
};
use le::reads::u16_at;
use rules::{Refusal, ask};
use scalar_bytes::reads::{ScalarPlace, scalar_refusal};

// The number of column i, at the front of a record of size bytes.
#[tactic(auto, unfolding(crate::specs::Columns::column_number_refusal))]
pub fn column_number_refusal(size: usize, s: &[u8], i: usize, at: usize) -> Result<(), Refusal>
    ensures { outcome_number result ≡ column_number_refusal size s.now i at }
{
    ask(
        ascending(size, s, i, at) && usize::from(u16_at(s, at)) < COLUMN_LIMIT,
        Refusal::Order,
    )
}

fn base_refusal(s: &[u8], at: usize) -> Result<(), Refusal>
    requires { at < 2 ^ 61 }
    ensures { outcome_number result ≡ base_refusal s.now at }
{
    ask(
        is_none(u16_at(s, at)) == is_none(u16_at(s, at + BASE_COLUMN_OFFSET)),
        Refusal::Code,
    )
}

fn sketch_number_refusal(sketches: u16, n: u16) -> Result<(), Refusal>
    ensures { outcome_number result ≡ sketch_number_refusal sketches n }
{
    ask(is_none(n) || n < sketches, Refusal::Reference)
}

// Column i of a side, the sheet having so many sketches.
#[tactic(auto, unfolding(crate::specs::Columns::column_refusal))]
pub fn column_refusal(s: &[u8], sketches: u16, i: usize, at: usize) -> Result<(), Refusal>
    requires { at < 2 ^ 59 }
    ensures { outcome_number result ≡ column_refusal s.now sketches i at }
{
    whole(COLUMN_SIZE, s, at)?;
    column_number_refusal(COLUMN_SIZE, s, i, at)?;
    base_refusal(s, at + COLUMN_BASE_OFFSET)?;
    scalar_refusal(ScalarPlace::Bound, s, at + COLUMN_LOWER_OFFSET)?;
    scalar_refusal(ScalarPlace::Bound, s, at + COLUMN_UPPER_OFFSET)?;
    estimate_refusal(s, at + COLUMN_FREQUENCY_OFFSET)?;
    estimate_refusal(s, at + COLUMN_DISTINCT_OFFSET)?;
    sketch_number_refusal(sketches, u16_at(s, at + COLUMN_SKETCH_OFFSET))
}
