// The part of the left rows that find a partner.
ghost use Rattle.std.specs.Prelude.{◌≡◌};
ghost use Rattle.records.specs.Sketches.{sketch_at};
ghost use Rattle.sketch_join.specs.SketchJoin.{residual_matched_left_rows, match_probability, sketches_match};

use crate::rows::{either_empty, non_null_rows};
use crate::sums::{MatchedValues, matched_values};
use float::order::{clamp_unit, f64_max, f64_min};
use records::columns::ColumnProfile;
use sketch::items::population;
use sketch::places::SketchPlace;
use std::num::nearest_u64_to_f64;

#[tactic(auto, unfolding(crate::specs::SketchJoin::residual_matched_left_rows))]
fn residual_matched_left_rows(
    sums: MatchedValues,
    left_non_null_rows: f64,
    intersection_distinct: f64,
    left_distinct: f64,
) -> f64
    ensures { result ≡ residual_matched_left_rows sums left_non_null_rows intersection_distinct left_distinct }
{
    let residual_left_rows = f64_max(left_non_null_rows - sums.known_matched_left_rows, 0.0);
    let residual_left_distinct = f64_max(left_distinct - sums.common_values, 0.0);
    let residual_intersection = f64_min(
        f64_max(intersection_distinct - sums.common_values, 0.0),
        residual_left_distinct,
    );
    if residual_left_distinct <= 0.0 {
        return 0.0;
    }
    residual_left_rows * residual_intersection / residual_left_distinct
}

#[tactic(auto, unfolding(crate::specs::SketchJoin::match_probability))]
fn match_probability(s: &[u8], first: SketchPlace, sums: MatchedValues, residual: f64) -> f64
    ensures { result ≡ match_probability (sketch_at s.now first.at) sums residual }
{
    let left_population = nearest_u64_to_f64(population(s, first.at));
    clamp_unit((sums.known_matched_left_rows + residual) / left_population)
}

// The left side's sketch is the first.
#[tactic(auto, unfolding(crate::specs::SketchJoin::sketches_match))]
pub fn sketches_match(
    s: &[u8],
    first: SketchPlace,
    second: SketchPlace,
    left: ColumnProfile,
    left_rows: f64,
    intersection_distinct: f64,
    left_distinct: f64,
) -> Option<f64>
    ensures { result ≡ sketches_match (sketch_at s.now first.at) (sketch_at s.now second.at) left left_rows intersection_distinct left_distinct }
{
    if either_empty(s, first.at, second.at) {
        return None;
    }
    let sums = matched_values(s, first, second);
    let left_non_null_rows = non_null_rows(s, first.at, left, left_rows);
    let residual = residual_matched_left_rows(
        sums,
        left_non_null_rows,
        intersection_distinct,
        left_distinct,
    );
    Some(match_probability(s, first, sums, residual))
}
