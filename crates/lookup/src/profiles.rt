// Columns' profiles and the rows of the two sides.
ghost use Rattle.std.specs.Prelude.{◌≡◌, ◌<◌, ◌^◌, option_map};
ghost use Rattle.records.specs.Columns.{column_profile_at};
ghost use Rattle.sheet.specs.Sheet.{viewed};
ghost use Rattle.lookup.specs.Lookup.{profile_place};

use layout::{
    COLUMN_DISTINCT_OFFSET, COLUMN_FREQUENCY_OFFSET, COLUMN_SIZE, COUNT_SIZE, ESTIMATE_SIZE,
    ESTIMATE_VALUE_OFFSET,
};
use le::floats::f64_at;
use scan::first_place;
use sheet::View;

// Where the profile of a column stands in the sheet, and the rows of the side that it stands on. No sheet
// comes near the bound.
#[derive(Clone, Copy)]
pub struct ProfilePlace {
    pub at: usize,
    pub rows: f64,
    ghost near: { at < 2 ^ 40 },
}

// One for each side, since the sheet has a field for each: one for both would state its answer by cases.
#[tactic(auto, unfolding(sheet::specs::Sheet::sheet_of, sheet::specs::Order::record_at, sheet::specs::Order::record_end, estimate::specs::Bytes::estimate_at))]
pub fn left_rows(sheet: &View) -> f64
    ensures { result ≡ (viewed sheet.now).left_rows.value }
{
    f64_at(
        sheet.bytes,
        usize::from(sheet.sections.rows) + COUNT_SIZE + ESTIMATE_VALUE_OFFSET,
    )
}

#[tactic(auto, unfolding(sheet::specs::Sheet::sheet_of, sheet::specs::Order::record_at, sheet::specs::Order::record_end, estimate::specs::Bytes::estimate_at))]
pub fn right_rows(sheet: &View) -> f64
    ensures { result ≡ (viewed sheet.now).right_rows.value }
{
    let right = usize::from(sheet.sections.rows) + COUNT_SIZE + ESTIMATE_SIZE;
    f64_at(sheet.bytes, right + ESTIMATE_VALUE_OFFSET)
}

// The left side's before the right side's.
#[tactic(auto, using(crate::proofs::LookupLaws::place_left, crate::proofs::LookupLaws::place_right, crate::proofs::LookupLaws::place_none))]
pub fn profile_place(sheet: &View, column: u16) -> Option<ProfilePlace>
    ensures { option_map (λ place. (place.at, place.rows)) result ≡ profile_place sheet.now.bytes.now sheet.now.sections column }
{
    if let Some(at) = first_place(
        sheet.bytes,
        sheet.sections.left_columns,
        COLUMN_SIZE,
        column,
    ) {
        return Some(ProfilePlace {
            at: at as usize,
            rows: left_rows(sheet),
        });
    }
    let at = first_place(
        sheet.bytes,
        sheet.sections.right_columns,
        COLUMN_SIZE,
        column,
    )?;
    Some(ProfilePlace {
        at: at as usize,
        rows: right_rows(sheet),
    })
}

// The figures of the profile at a place.
#[tactic(auto, unfolding(records::specs::Columns::column_profile_at, estimate::specs::Bytes::estimate_at))]
pub fn frequency_at(s: &[u8], at: usize) -> f64
    requires { at < 2 ^ 40 }
    ensures { result ≡ (column_profile_at s.now at).frequency.value }
{
    f64_at(s, at + COLUMN_FREQUENCY_OFFSET + ESTIMATE_VALUE_OFFSET)
}

#[tactic(auto, unfolding(records::specs::Columns::column_profile_at, estimate::specs::Bytes::estimate_at))]
pub fn distinct_at(s: &[u8], at: usize) -> f64
    requires { at < 2 ^ 40 }
    ensures { result ≡ (column_profile_at s.now at).distinct.value }
{
    f64_at(s, at + COLUMN_DISTINCT_OFFSET + ESTIMATE_VALUE_OFFSET)
}
