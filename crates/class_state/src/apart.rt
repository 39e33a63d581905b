// Every column alone.
ghost use Rattle.std.specs.Prelude.{◌≡◌};
ghost use Rattle.records.specs.Lists.{tabulate, itself};
ghost use Rattle.sheet.specs.Sheet.{viewed};
ghost use Rattle.layout.specs.Places.{column_limit};
ghost use Rattle.class_state.specs.Distincts.{store_distincts};
ghost use Rattle.class_state.specs.State.{unknown_distinct, apart};

use crate::EquivalenceClassState;
use estimate::Estimate;
use estimate::bytes::estimate_at;
use layout::{
    COLUMN_DISTINCT_OFFSET, COLUMN_LIMIT, COLUMN_SIZE, COUNT_SIZE, UNKNOWN_COLUMN_NDV_CAP_OFFSET,
};
use le::reads::u16_at;
use lookup::settings::setting_at;
use sheet::View;
use std::array;

fn own_roots() -> [u8; COLUMN_LIMIT]
    ensures { result ≡ tabulate itself column_limit }
{
    array::from_fn(|i| i as u8)
}

// The distinct of a column with no profile.
#[tactic(auto, unfolding(crate::specs::State::unknown_distinct, sheet::specs::Sheet::sheet_of, sheet::specs::Order::record_at, records::specs::Settings::settings_at))]
fn unknown_distinct(sheet: &View) -> Estimate
    ensures { result ≡ unknown_distinct (viewed sheet.now) }
{
    Estimate::default(setting_at(sheet, UNKNOWN_COLUMN_NDV_CAP_OFFSET))
}

// The distincts of the profiles of a section, from the last to the first, so that the first of a
// column is the one that stays. A loop by places, since it writes where the profiles say.
fn store_distincts(s: &[u8], section: u16, distincts: &mut [Estimate])
    ensures { distincts.new ≡ store_distincts s.now section distincts.old }
{
    let start = section as usize;
    for i in (0..u16_at(s, start) as usize).rev() {
        let at = start + COUNT_SIZE + COLUMN_SIZE * i;
        let column = u16_at(s, at) as usize;
        if column < distincts.len() {
            distincts[column] = estimate_at(s, at + COLUMN_DISTINCT_OFFSET);
        }
    }
}

// The left side goes behind the right one, so that its profiles are the ones that stay.
pub fn apart(sheet: &View) -> EquivalenceClassState
    ensures { result ≡ apart (viewed sheet.now) }
{
    let unknown = unknown_distinct(sheet);
    let mut distincts = [unknown; COLUMN_LIMIT];
    store_distincts(sheet.bytes, sheet.sections.right_columns, &mut distincts);
    store_distincts(sheet.bytes, sheet.sections.left_columns, &mut distincts);
    EquivalenceClassState {
        roots: own_roots(),
        distincts,
    }
}
