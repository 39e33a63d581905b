// The items of a sketch, where they stand behind its head.
ghost use Rattle.std.specs.Prelude.{◌≡◌, ◌+◌, ◌*◌, ◌^◌, ◌<◌, ◌≤◌, length, IsTrue};
ghost use Rattle.layout.specs.Places.{scalar_size, sketch_head_size, item_size};
ghost use Rattle.scalar.specs.Order.{scalar_order, is_equal};
ghost use Rattle.scalar_bytes.specs.Reading.{scalar_at};
ghost use Rattle.records.specs.Sketches.{sketch_item_at, sketch_at};
ghost use Rattle.sketch.specs.Frequent.{counts_of, find_item, residual_rows};

use crate::places::SketchPlace;
use crate::values::{has_value, has_value_there};
use layout::{
    ITEM_ERROR_OFFSET, ITEM_LOWER_OFFSET, ITEM_SIZE, SKETCH_COUNT_OFFSET, SKETCH_HEAD_SIZE,
};
use le::reads::{u16_at, u64_at, word_at};
use scalar::Scalar;

// How often the value of an item occurs: at least `lower` times, and at most `error` more.
#[derive(Clone, Copy, Debug, PartialEq, Eq)]
pub struct Counts {
    pub lower: u64,
    pub error: u64,
}

#[tactic(auto, unfolding(records::specs::Sketches::sketch_at))]
pub fn population(s: &[u8], at: usize) -> u64
    ensures { result ≡ (sketch_at s.now at).population }
{
    u64_at(s, at)
}

#[tactic(auto, using(crate::proofs::ItemLaws::items_count))]
pub fn item_count(s: &[u8], at: usize) -> u16
    requires { at < 2 ^ 60 }
    ensures { result ≡ length (sketch_at s.now at).items }
{
    u16_at(s, at + SKETCH_COUNT_OFFSET)
}

// The counts of an item. THERE says that its bytes are all there: they are read with no test.
#[tactic(auto, unfolding(records::specs::Sketches::sketch_item_at))]
fn counts_at<const THERE: bool>(s: &[u8], item: usize) -> Counts
    requires { (item < 2 ^ 60) × (IsTrue THERE → item + item_size ≤ length s.now) }
    ensures { result ≡ counts_of (sketch_item_at s.now item) }
{
    if THERE {
        return Counts {
            lower: word_at(s, item + ITEM_LOWER_OFFSET),
            error: word_at(s, item + ITEM_ERROR_OFFSET),
        };
    }
    Counts {
        lower: u64_at(s, item + ITEM_LOWER_OFFSET),
        error: u64_at(s, item + ITEM_ERROR_OFFSET),
    }
}

// Whether an item has the value. THERE is as above.
fn item_has<const THERE: bool>(s: &[u8], item: usize, value: Scalar) -> bool
    requires { (item < 2 ^ 60) × (IsTrue THERE → item + scalar_size ≤ length s.now) }
    ensures { result ≡ is_equal (scalar_order (scalar_at s.now item) value) }
{
    if THERE {
        return has_value_there(s, item, value);
    }
    has_value(s, item, value)
}

// The lookup among a sketch's n items, which THERE says are all there. No slice of n items stands for the
// two: where they are not all there it would be shorter, and the rest reads as zeros. A loop, and no `find`:
// a closure that reads THERE needs clauses of its own, which are longer than the loop.
#[tactic(auto, using(crate::proofs::ItemLaws::items_all, crate::proofs::ItemLaws::find_next, crate::proofs::ItemLaws::find_here, crate::proofs::ItemLaws::find_none))]
fn find_among<const THERE: bool>(
    s: &[u8],
    sketch: SketchPlace,
    n: u16,
    value: Scalar,
) -> Option<Counts>
    requires { (n ≡ length (sketch_at s.now sketch.at).items) × (IsTrue THERE → sketch.at + sketch_head_size + item_size * n ≤ length s.now) }
    ensures { result ≡ find_item value (sketch_at s.now sketch.at).items }
{
    for i in 0..usize::from(n) {
        let item = sketch.at + SKETCH_HEAD_SIZE + ITEM_SIZE * i;
        if item_has::<THERE>(s, item, value) {
            return Some(counts_at::<THERE>(s, item));
        }
    }
    None
}

pub fn find_item(s: &[u8], sketch: SketchPlace, value: Scalar) -> Option<Counts>
    ensures { result ≡ find_item value (sketch_at s.now sketch.at).items }
{
    let n = item_count(s, sketch.at);
    if sketch.at + SKETCH_HEAD_SIZE + ITEM_SIZE * usize::from(n) <= s.len() {
        return find_among::<true>(s, sketch, n, value);
    }
    find_among::<false>(s, sketch, n, value)
}

// The rows that no item counts. Item by item they are taken from the population, so no sum is made
// that could pass 64 bits.
pub fn residual_rows(s: &[u8], sketch: SketchPlace) -> u64
    ensures { result ≡ residual_rows (sketch_at s.now sketch.at) }
{
    let n = usize::from(item_count(s, sketch.at));
    (0..n).fold(population(s, sketch.at), |rows, i| {
        let item = sketch.at + SKETCH_HEAD_SIZE + ITEM_SIZE * i;
        rows.saturating_sub(u64_at(s, item + ITEM_LOWER_OFFSET))
    })
}
