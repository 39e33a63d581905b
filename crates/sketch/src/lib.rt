// frequent_value_selectivity of the source's analysis.rs, over sketches where they stand in a sheet.
#![tactic(auto)]

ghost use Rattle.std.specs.Prelude.{◌≡◌, ◌^◌, ◌<◌};
ghost use Rattle.records.specs.Columns.{column_profile_at};
ghost use Rattle.records.specs.Sketches.{sketch_at};
ghost use Rattle.sheet.specs.Sheet.{records_in};
ghost use Rattle.sheet.specs.declared.order.Kind.TheVariants.{Sketches};
ghost use Rattle.sketch.specs.Frequent.{item_selectivity, residual_selectivity, found_selectivity, sketch_selectivity, numbered_selectivity, frequent_value_selectivity};

use float::order::{clamp_unit, f64_max};
use items::{Counts, find_item, item_count, population, residual_rows};
use layout::{COLUMN_DISTINCT_OFFSET, COLUMN_SKETCH_OFFSET, ESTIMATE_VALUE_OFFSET};
use le::floats::f64_at;
use places::{SketchPlace, numbered_place};
use records::columns::sketch_number_at;
use scalar::{Scalar, is_null};
use std::num::nearest_u64_to_f64;

pub mod items;
pub mod places;
mod there;
mod values;

#[tactic(auto, using(crate::proofs::NumberLaws::half_bits), unfolding(crate::specs::Frequent::item_selectivity))]
fn item_selectivity(population: u64, counts: Counts) -> f64
    ensures { result ≡ item_selectivity population counts }
{
    let midpoint = nearest_u64_to_f64(counts.lower) + nearest_u64_to_f64(counts.error) * 0.5;
    clamp_unit(midpoint / nearest_u64_to_f64(population))
}

#[tactic(auto, unfolding(crate::specs::Frequent::residual_selectivity))]
fn residual_selectivity(s: &[u8], sketch: SketchPlace, distinct: f64) -> f64
    ensures { result ≡ residual_selectivity (sketch_at s.now sketch.at) distinct }
{
    let rows = nearest_u64_to_f64(residual_rows(s, sketch));
    let items = nearest_u64_to_f64(u64::from(item_count(s, sketch.at)));
    let residual_distinct = f64_max(distinct - items, 1.0);
    clamp_unit(rows / residual_distinct / nearest_u64_to_f64(population(s, sketch.at)))
}

fn found_selectivity(found: Option<Counts>, s: &[u8], sketch: SketchPlace, distinct: f64) -> f64
    ensures { result ≡ found_selectivity found (sketch_at s.now sketch.at) distinct }
{
    match found {
        None => residual_selectivity(s, sketch, distinct),
        Some(counts) => item_selectivity(population(s, sketch.at), counts),
    }
}

#[tactic(auto, unfolding(crate::specs::Frequent::sketch_selectivity))]
fn sketch_selectivity(s: &[u8], sketch: SketchPlace, distinct: f64, value: Scalar) -> Option<f64>
    ensures { result ≡ sketch_selectivity (sketch_at s.now sketch.at) distinct value }
{
    if nearest_u64_to_f64(population(s, sketch.at)) <= 0.0 {
        return None;
    }
    let found = find_item(s, sketch, value);
    Some(found_selectivity(found, s, sketch, distinct))
}

// The sketch with a number.
#[tactic(auto, using(crate::proofs::PlaceLaws::selected_there, crate::proofs::PlaceLaws::selected_lacking))]
fn numbered_selectivity(
    s: &[u8],
    start: u16,
    number: Option<u16>,
    distinct: f64,
    literal: Scalar,
) -> Option<f64>
    ensures { result ≡ numbered_selectivity number (records_in Sketches sketch_at s.now start) distinct literal }
{
    let sketch = numbered_place(s, start, number)?;
    sketch_selectivity(s, sketch, distinct, literal)
}

// Of the profile at a place. `start` is the place of the count of a sheet's sketches. The profile's place is
// a number and no struct: one with its side's rows would hold rows that are not asked for.
#[tactic(auto, unfolding(crate::specs::Frequent::frequent_value_selectivity, records::specs::Columns::column_profile_at))]
pub fn frequent_value_selectivity(
    s: &[u8],
    start: u16,
    profile: usize,
    literal: Scalar,
) -> Option<f64>
    requires { profile < 2 ^ 40 }
    ensures { result ≡ frequent_value_selectivity (records_in Sketches sketch_at s.now start) (column_profile_at s.now profile) literal }
{
    if is_null(literal) {
        return None;
    }
    let distinct = f64_at(s, profile + COLUMN_DISTINCT_OFFSET + ESTIMATE_VALUE_OFFSET);
    let number = sketch_number_at(s, profile + COLUMN_SKETCH_OFFSET);
    numbered_selectivity(s, start, number, distinct, literal)
}
