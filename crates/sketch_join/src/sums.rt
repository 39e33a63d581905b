// Sums over the values that two sketches both track.
ghost use Rattle.std.specs.Prelude.{◌≡◌, ◌^◌, ◌<◌};
ghost use Rattle.records.specs.Sketches.{sketch_at};
ghost use Rattle.sketch_join.specs.SketchJoin.{with_common, common_values, with_matched, matched_values};

use layout::{ITEM_LOWER_OFFSET, ITEM_SIZE, SKETCH_HEAD_SIZE};
use le::reads::u64_at;
use scalar_bytes::reads::scalar_at;
use sketch::items::{Counts, find_item, item_count};
use sketch::places::SketchPlace;
use std::num::nearest_u64_to_f64;

// For pairs of rows.
#[derive(Clone, Copy, Debug, PartialEq)]
pub struct CommonValues {
    pub heavy_join_rows: f64,
    pub common_left_rows: f64,
    pub common_right_rows: f64,
    pub common_values: u64,
}

// For rows of the left side.
#[derive(Clone, Copy, Debug, PartialEq)]
pub struct MatchedValues {
    pub known_matched_left_rows: f64,
    pub common_values: f64,
}

#[tactic(auto, unfolding(crate::specs::SketchJoin::with_common))]
fn with_common(sums: CommonValues, lower: u64, found: Option<Counts>) -> CommonValues
    requires { sums.common_values < 2 ^ 32 }
    ensures { result ≡ with_common sums lower found }
{
    match found {
        None => sums,
        Some(other) => {
            let left_frequency = nearest_u64_to_f64(lower);
            let right_frequency = nearest_u64_to_f64(other.lower);
            if 0.0 < left_frequency && 0.0 < right_frequency {
                CommonValues {
                    heavy_join_rows: sums.heavy_join_rows + left_frequency * right_frequency,
                    common_left_rows: sums.common_left_rows + left_frequency,
                    common_right_rows: sums.common_right_rows + right_frequency,
                    common_values: sums.common_values + 1,
                }
            } else {
                sums
            }
        }
    }
}

// The sums over the items of the first sketch. A loop, and no `fold`: that the count is small has to go from
// turn to turn.
#[tactic(auto, using(range::proofs::BitLaws::zero_bits, crate::proofs::SumLaws::common_grows, crate::proofs::SumLaws::summed_all, crate::proofs::SumLaws::summed_next, crate::proofs::SumLaws::summed_end))]
pub fn common_values(s: &[u8], first: SketchPlace, second: SketchPlace) -> CommonValues
    ensures { result ≡ common_values (sketch_at s.now first.at).items (sketch_at s.now second.at).items }
{
    let n = usize::from(item_count(s, first.at));
    let mut sums = CommonValues {
        heavy_join_rows: 0.0,
        common_left_rows: 0.0,
        common_right_rows: 0.0,
        common_values: 0,
    };
    for i in 0..n {
        let item = first.at + SKETCH_HEAD_SIZE + ITEM_SIZE * i;
        let found = find_item(s, second, scalar_at(s, item));
        sums = with_common(sums, u64_at(s, item + ITEM_LOWER_OFFSET), found);
    }
    sums
}

#[tactic(auto, unfolding(crate::specs::SketchJoin::with_matched))]
fn with_matched(sums: MatchedValues, lower: u64, found: Option<Counts>) -> MatchedValues
    ensures { result ≡ with_matched sums lower found }
{
    match found {
        None => sums,
        Some(other) => {
            let left_frequency = nearest_u64_to_f64(lower);
            if 0.0 < left_frequency && 0 < other.lower {
                MatchedValues {
                    known_matched_left_rows: sums.known_matched_left_rows + left_frequency,
                    common_values: sums.common_values + 1.0,
                }
            } else {
                sums
            }
        }
    }
}

// The sums over the items of the first sketch. This walk and the other stay two: one that takes the step
// would have to carry the bound on the other's count through it. A loop, and no `fold`, which takes some 4
// instructions an item more.
#[tactic(auto, using(range::proofs::BitLaws::zero_bits, crate::proofs::SumLaws::summed_all, crate::proofs::SumLaws::summed_next, crate::proofs::SumLaws::summed_end))]
pub fn matched_values(s: &[u8], first: SketchPlace, second: SketchPlace) -> MatchedValues
    ensures { result ≡ matched_values (sketch_at s.now first.at).items (sketch_at s.now second.at).items }
{
    let n = usize::from(item_count(s, first.at));
    let mut sums = MatchedValues {
        known_matched_left_rows: 0.0,
        common_values: 0.0,
    };
    for i in 0..n {
        let item = first.at + SKETCH_HEAD_SIZE + ITEM_SIZE * i;
        let found = find_item(s, second, scalar_at(s, item));
        sums = with_matched(sums, u64_at(s, item + ITEM_LOWER_OFFSET), found);
    }
    sums
}
