// A class of columns that are known to be equal.
ghost use Rattle.std.specs.Prelude.{◌≡◌, ◌<◌, ◌^◌};
ghost use Rattle.records.specs.Classes.{class_head_at};

use estimate::Estimate;
use estimate::bytes::estimate_at;
use layout::CLASS_DISTINCT_OFFSET;
use le::reads::u16_at;

// What stands before the columns. `count` is their number.
#[derive(Clone, Copy)]
pub struct ClassHead {
    pub count: u16,
    pub distinct: Estimate,
}

#[tactic(auto, unfolding(crate::specs::Classes::class_head_at))]
pub fn class_head_at(s: &[u8], at: usize) -> ClassHead
    requires { at < 2 ^ 60 }
    ensures { result ≡ class_head_at s.now at }
{
    ClassHead {
        count: u16_at(s, at),
        distinct: estimate_at(s, at + CLASS_DISTINCT_OFFSET),
    }
}
