// A sketch: how many values it stands for, and the common ones among them with their counts.
ghost use Rattle.std.specs.Prelude.{◌≡◌, ◌<◌, ◌^◌};
ghost use Rattle.records.specs.Sketches.{sketch_head_at, sketch_item_at};

use layout::{ITEM_ERROR_OFFSET, ITEM_LOWER_OFFSET, SKETCH_COUNT_OFFSET};
use le::reads::{u16_at, u64_at};
use scalar::Scalar;
use scalar_bytes::reads::scalar_at;

// What stands before the items. `count` is their number.
#[derive(Clone, Copy, Debug, PartialEq, Eq)]
pub struct SketchHead {
    pub population: u64,
    pub count: u16,
}

// A value, the least number of times that it occurs, and how far above that the true number may be.
#[derive(Clone, Copy)]
pub struct SketchItem {
    pub value: Scalar,
    pub lower: u64,
    pub error: u64,
}

#[tactic(auto, unfolding(crate::specs::Sketches::sketch_head_at))]
pub fn sketch_head_at(s: &[u8], at: usize) -> SketchHead
    requires { at < 2 ^ 60 }
    ensures { result ≡ sketch_head_at s.now at }
{
    SketchHead {
        population: u64_at(s, at),
        count: u16_at(s, at + SKETCH_COUNT_OFFSET),
    }
}

#[tactic(auto, unfolding(crate::specs::Sketches::sketch_item_at))]
pub fn sketch_item_at(s: &[u8], at: usize) -> SketchItem
    requires { at < 2 ^ 60 }
    ensures { result ≡ sketch_item_at s.now at }
{
    SketchItem {
        value: scalar_at(s, at),
        lower: u64_at(s, at + ITEM_LOWER_OFFSET),
        error: u64_at(s, at + ITEM_ERROR_OFFSET),
    }
}
