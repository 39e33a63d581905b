// sketch_join_estimate and sketch_left_match_probability of the source's analysis.rs, over sketches
// where they stand in a sheet. In this crate the bytes and two places go side by side: most functions that
// take them hand them on one by one, and would take a struct of the three apart.
#![tactic(auto)]

ghost use Rattle.std.specs.Prelude.{◌≡◌};
ghost use Rattle.records.specs.Sketches.{sketch_at};
ghost use Rattle.sheet.specs.Sheet.{records_in};
ghost use Rattle.sheet.specs.declared.order.Kind.TheVariants.{Sketches};
ghost use Rattle.sketch_join.specs.SketchJoin.{sketch_join_estimate, sketch_left_match_probability};

use matches::sketches_match;
use pairs::sketches_join;
use records::columns::ColumnProfile;
use sketch::places::numbered_place;

mod matches;
mod pairs;
mod rows;
pub mod sums;

// The selectivity of a pair of rows. `start` is the place of the count of a sheet's sketches. A profile and
// its side's rows are two parameters and no struct: of the right side the second function asks no rows.
#[tactic(auto, using(crate::proofs::NumberLaws::numbered_found, crate::proofs::NumberLaws::left_lacking, crate::proofs::NumberLaws::right_lacking, crate::proofs::NumberLaws::join_empty), unfolding(crate::specs::SketchJoin::sketch_join_estimate))]
pub fn sketch_join_estimate(
    s: &[u8],
    start: u16,
    left: ColumnProfile,
    left_rows: f64,
    right: ColumnProfile,
    right_rows: f64,
) -> Option<f64>
    ensures { result ≡ sketch_join_estimate (records_in Sketches sketch_at s.now start) left left_rows right right_rows }
{
    let first = numbered_place(s, start, left.sketch)?;
    let second = numbered_place(s, start, right.sketch)?;
    sketches_join(s, first, second, left, left_rows, right, right_rows)
}

// As `sketch_join_estimate`, for the part of the left rows that find a partner. One function over what is
// done with the two places would be no plainer: it would stand for two lines, and take a closure.
#[tactic(auto, using(crate::proofs::NumberLaws::numbered_found, crate::proofs::NumberLaws::left_lacking, crate::proofs::NumberLaws::right_lacking, crate::proofs::NumberLaws::match_empty), unfolding(crate::specs::SketchJoin::sketch_left_match_probability))]
pub fn sketch_left_match_probability(
    s: &[u8],
    start: u16,
    left: ColumnProfile,
    left_rows: f64,
    right: ColumnProfile,
    intersection_distinct: f64,
    left_distinct: f64,
) -> Option<f64>
    ensures { result ≡ sketch_left_match_probability (records_in Sketches sketch_at s.now start) left left_rows right intersection_distinct left_distinct }
{
    let first = numbered_place(s, start, left.sketch)?;
    let second = numbered_place(s, start, right.sketch)?;
    sketches_match(
        s,
        first,
        second,
        left,
        left_rows,
        intersection_distinct,
        left_distinct,
    )
}
