// Where the sketches of a section stand.
ghost use Rattle.std.specs.Prelude.{◌≡◌, ◌^◌, ◌<◌, option_map};
ghost use Rattle.sheet.specs.Order.{record_at};
ghost use Rattle.sheet.specs.declared.order.Kind.TheVariants.{Sketches};
ghost use Rattle.sketch.specs.Places.{numbered_place};

use layout::{COUNT_SIZE, ITEM_SIZE, SKETCH_COUNT_OFFSET, SKETCH_HEAD_SIZE};
use le::reads::u16_at;

// The place of a sketch. No sheet comes near the bound.
#[derive(Clone, Copy)]
pub struct SketchPlace {
    pub at: usize,
    ghost near: { at < 2 ^ 40 },
}

// Sketch k of the section whose count stands at `start`. A loop, and no `fold`: that each place is small
// has to go from turn to turn.
#[tactic(auto, using(crate::proofs::PlaceLaws::place_next), unfolding(sheet::specs::Order::record_at))]
pub fn sketch_place(s: &[u8], start: u16, k: u16) -> SketchPlace
    ensures { result.at ≡ record_at Sketches s.now start k }
{
    let mut at = usize::from(start) + COUNT_SIZE;
    for i in 0..k {
        at += SKETCH_HEAD_SIZE + ITEM_SIZE * usize::from(u16_at(s, at + SKETCH_COUNT_OFFSET));
    }
    SketchPlace { at }
}

// The sketch with a number. One that the section does not hold names no sketch.
pub fn numbered_place(s: &[u8], start: u16, number: Option<u16>) -> Option<SketchPlace>
    ensures { option_map (λ sketch. sketch.at) result ≡ numbered_place s.now start number }
{
    let k = number?;
    if k < u16_at(s, usize::from(start)) {
        return Some(sketch_place(s, start, k));
    }
    None
}
