// The selectivity of a pair of rows, one of each side.
ghost use Rattle.std.specs.Prelude.{◌≡◌};
ghost use Rattle.records.specs.Sketches.{sketch_at};
ghost use Rattle.sketch_join.specs.SketchJoin.{residual_join_rows, pair_selectivity, sketches_join};

use crate::rows::{either_empty, non_null_rows};
use crate::sums::{CommonValues, common_values};
use float::order::{clamp_unit, f64_max};
use records::columns::ColumnProfile;
use sketch::items::population;
use sketch::places::SketchPlace;
use std::num::nearest_u64_to_f64;

#[tactic(auto, unfolding(crate::specs::SketchJoin::residual_join_rows))]
fn residual_join_rows(
    sums: CommonValues,
    left_non_null_rows: f64,
    right_non_null_rows: f64,
    left_distinct: f64,
    right_distinct: f64,
) -> f64
    ensures { result ≡ residual_join_rows sums left_non_null_rows right_non_null_rows left_distinct right_distinct }
{
    let common_values = nearest_u64_to_f64(sums.common_values);
    let left_residual_rows = f64_max(left_non_null_rows - sums.common_left_rows, 0.0);
    let right_residual_rows = f64_max(right_non_null_rows - sums.common_right_rows, 0.0);
    let left_residual_ndv = f64_max(left_distinct - common_values, 1.0);
    let right_residual_ndv = f64_max(right_distinct - common_values, 1.0);
    left_residual_rows * right_residual_rows / f64_max(left_residual_ndv, right_residual_ndv)
}

#[tactic(auto, unfolding(crate::specs::SketchJoin::pair_selectivity))]
fn pair_selectivity(
    s: &[u8],
    first: SketchPlace,
    second: SketchPlace,
    sums: CommonValues,
    residual: f64,
) -> f64
    ensures { result ≡ pair_selectivity (sketch_at s.now first.at) (sketch_at s.now second.at) sums residual }
{
    let left_population = nearest_u64_to_f64(population(s, first.at));
    let right_population = nearest_u64_to_f64(population(s, second.at));
    clamp_unit((sums.heavy_join_rows + residual) / (left_population * right_population))
}

// The left side's sketch is the first.
#[tactic(auto, unfolding(crate::specs::SketchJoin::sketches_join))]
pub fn sketches_join(
    s: &[u8],
    first: SketchPlace,
    second: SketchPlace,
    left: ColumnProfile,
    left_rows: f64,
    right: ColumnProfile,
    right_rows: f64,
) -> Option<f64>
    ensures { result ≡ sketches_join (sketch_at s.now first.at) (sketch_at s.now second.at) left left_rows right right_rows }
{
    if either_empty(s, first.at, second.at) {
        return None;
    }
    let sums = common_values(s, first, second);
    let left_non_null_rows = non_null_rows(s, first.at, left, left_rows);
    let right_non_null_rows = non_null_rows(s, second.at, right, right_rows);
    let residual = residual_join_rows(
        sums,
        left_non_null_rows,
        right_non_null_rows,
        left.distinct.value,
        right.distinct.value,
    );
    Some(pair_selectivity(s, first, second, sums, residual))
}
