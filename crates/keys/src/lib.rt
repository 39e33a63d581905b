// What a sheet's tables and keys tell of columns: single_column_unique, single_column_foreign_key,
// profile_has_complete_base_population and effective_join_distinct of the source's analysis.rs, with the
// source's parameters.
#![tactic(auto)]

ghost use Rattle.std.specs.Prelude.{◌≡◌};
ghost use Rattle.sheet.specs.Sheet.{viewed};
ghost use Rattle.keys.specs.Keys.{is_listed, row_count, has_key, single_column_unique, single_column_foreign_key, has_rows, profile_has_complete_base_population, is_complete_key, effective_join_distinct};

use estimate::{Estimate, EstimateSource};
use layout::{COUNT_SIZE, KEY_SIZE, TABLE_SIZE};
use le::reads::u16_at;
use records::catalog::{Key, key_at, table_at};
use records::columns::{BaseColumn, ColumnProfile};
use scan::first_place;
use sheet::View;
use std::num::nearest_u64_to_f64;

#[tactic(auto, using(crate::proofs::KeyLaws::listed_is))]
fn is_listed(sheet: &View, table: u16) -> bool
    ensures { result ≡ is_listed table (viewed sheet.now).tables }
{
    first_place(sheet.bytes, sheet.sections.tables, TABLE_SIZE, table).is_some()
}

#[tactic(auto, using(crate::proofs::KeyLaws::count_found, crate::proofs::KeyLaws::count_none))]
fn row_count(sheet: &View, table: u16) -> Option<u64>
    ensures { result ≡ row_count table (viewed sheet.now).tables }
{
    let at = first_place(sheet.bytes, sheet.sections.tables, TABLE_SIZE, table)?;
    table_at(sheet.bytes, at as usize).rows
}

fn has_key(sheet: &View, key: Key) -> bool
    ensures { result ≡ has_key key (viewed sheet.now).keys }
{
    let start = usize::from(sheet.sections.keys);
    let count = usize::from(u16_at(sheet.bytes, start));
    let first = start + COUNT_SIZE;
    (0..count).any(|i| key_at(sheet.bytes, first + KEY_SIZE * i) == key)
}

#[tactic(auto, unfolding(crate::specs::Keys::single_column_unique))]
fn single_column_unique(sheet: &View, column: BaseColumn) -> bool
    ensures { result ≡ single_column_unique (viewed sheet.now) column }
{
    is_listed(sheet, column.table) && has_key(sheet, Key::Unique(column))
}

#[tactic(auto, unfolding(crate::specs::Keys::single_column_foreign_key))]
pub fn single_column_foreign_key(sheet: &View, column: BaseColumn, referenced: BaseColumn) -> bool
    ensures { result ≡ single_column_foreign_key (viewed sheet.now) column referenced }
{
    is_listed(sheet, column.table)
        && is_listed(sheet, referenced.table)
        && has_key(sheet, Key::Foreign { column, referenced })
}

fn has_rows(rows: f64, count: Option<u64>) -> bool
    ensures { result ≡ has_rows rows count }
{
    count.is_some_and(|n| rows == nearest_u64_to_f64(n))
}

#[tactic(auto, unfolding(crate::specs::Keys::profile_has_complete_base_population))]
pub fn profile_has_complete_base_population(sheet: &View, rows: Estimate, table: u16) -> bool
    ensures { result ≡ profile_has_complete_base_population (viewed sheet.now) rows table }
{
    rows.source == EstimateSource::Catalog && has_rows(rows.value, row_count(sheet, table))
}

// Whether a column is a key of a table that a side has the whole of.
fn is_complete_key(sheet: &View, rows: Estimate, column: BaseColumn) -> bool
    ensures { result ≡ is_complete_key (viewed sheet.now) rows column }
{
    single_column_unique(sheet, column)
        && profile_has_complete_base_population(sheet, rows, column.table)
}

#[tactic(auto, unfolding(crate::specs::Keys::effective_join_distinct))]
pub fn effective_join_distinct(sheet: &View, rows: Estimate, profile: ColumnProfile) -> f64
    ensures { result ≡ effective_join_distinct (viewed sheet.now) rows profile }
{
    match profile.base {
        Some(column) if is_complete_key(sheet, rows, column) => profile.frequency.value,
        _ => profile.distinct.value,
    }
}
