// A column's profile.
ghost use Rattle.std.specs.Prelude.{◌≡◌, ◌<◌, ◌^◌};
ghost use Rattle.records.specs.Columns.{base_column_at, sketch_number_at, column_profile_at};

use estimate::Estimate;
use estimate::bytes::estimate_at;
use layout::{
    BASE_COLUMN_OFFSET, COLUMN_BASE_OFFSET, COLUMN_DISTINCT_OFFSET, COLUMN_FREQUENCY_OFFSET,
    COLUMN_LOWER_OFFSET, COLUMN_SKETCH_OFFSET, COLUMN_UPPER_OFFSET, NO_NUMBER,
};
use le::reads::u16_at;
use scalar::Scalar;
use scalar_bytes::reads::bound_at;

// A column of a table.
#[derive(Clone, Copy, Debug, PartialEq, Eq)]
pub struct BaseColumn {
    pub table: u16,
    pub column: u16,
}

// `base` is the column that its values come from, and `sketch` the place of its sketch among the
// sheet's.
#[derive(Clone, Copy)]
pub struct ColumnProfile {
    pub column: u16,
    pub base: Option<BaseColumn>,
    pub lower: Option<Scalar>,
    pub upper: Option<Scalar>,
    pub frequency: Estimate,
    pub distinct: Estimate,
    pub sketch: Option<u16>,
}

#[tactic(auto, unfolding(crate::specs::Columns::base_column_at))]
fn base_column_at(s: &[u8], at: usize) -> Option<BaseColumn>
    requires { at < 2 ^ 61 }
    ensures { result ≡ base_column_at s.now at }
{
    let table = u16_at(s, at);
    if table == NO_NUMBER {
        return None;
    }
    Some(BaseColumn {
        table,
        column: u16_at(s, at + BASE_COLUMN_OFFSET),
    })
}

#[tactic(auto, unfolding(crate::specs::Columns::sketch_number_at))]
pub fn sketch_number_at(s: &[u8], at: usize) -> Option<u16>
    ensures { result ≡ sketch_number_at s.now at }
{
    let n = u16_at(s, at);
    (n != NO_NUMBER).then_some(n)
}

#[tactic(auto, unfolding(crate::specs::Columns::column_profile_at))]
pub fn column_profile_at(s: &[u8], at: usize) -> ColumnProfile
    requires { at < 2 ^ 60 }
    ensures { result ≡ column_profile_at s.now at }
{
    ColumnProfile {
        column: u16_at(s, at),
        base: base_column_at(s, at + COLUMN_BASE_OFFSET),
        lower: bound_at(s, at + COLUMN_LOWER_OFFSET),
        upper: bound_at(s, at + COLUMN_UPPER_OFFSET),
        frequency: estimate_at(s, at + COLUMN_FREQUENCY_OFFSET),
        distinct: estimate_at(s, at + COLUMN_DISTINCT_OFFSET),
        sketch: sketch_number_at(s, at + COLUMN_SKETCH_OFFSET),
    }
}
