// The rules of sketches. A function named for a refusal gives the first rule broken, in the order of the bytes. The
// bounds of places and of numbers say that the sums which make the places of fields fit a usize; each sum is a new
// place, so a type that held the bound would owe it anew.
#![tactic(auto)]

ghost use Rattle.std.specs.Prelude.{◌≡◌, ◌<◌, ◌≤◌, ◌^◌, ◌*◌, ◌+◌, ◌-◌, length, eqb};
ghost use Rattle.le.specs.Fields.{field_at, u64_at};
ghost use Rattle.rules.specs.Rules.{first_refusal, outcome_number};
ghost use Rattle.layout.specs.Places.{wide_size, scalar_size, item_size};
ghost use Rattle.sketch_rules.specs.Sketches.{same_value, alike_refusal, item_refusal, sketch_head_refusal, sketch_refusal};

use layout::{
    ITEM_ERROR_OFFSET, ITEM_LIMIT, ITEM_LOWER_OFFSET, ITEM_SIZE, ITEMS_LIMIT, NUMBER_SIZE,
    SKETCH_COUNT_OFFSET, SKETCH_HEAD_SIZE, WIDE_SIZE,
};
use le::reads::{byte_at, u16_at, u64_at, word_at};
use record_rules::fields::{count_lawful, whole};
use rules::{Refusal, ask};
use scalar_bytes::reads::{ScalarPlace, scalar_refusal};

// A scalar's bytes are compared as two numbers of eight, one of two and the last byte: `==` of slices takes 50
// instructions for a pair of items, and this 25. Where the numbers behind the first stand:
const SECOND_OFFSET: usize = WIDE_SIZE;

const THIRD_OFFSET: usize = SECOND_OFFSET + WIDE_SIZE;

const LAST_OFFSET: usize = THIRD_OFFSET + NUMBER_SIZE;

// Whether the bytes of two scalars behind the first eight are the same.
fn same_rest(s: &[u8], a: usize, b: usize) -> bool
    requires { (a < 2 ^ 60) × (b < 2 ^ 60) }
    ensures { result ≡ eqb (field_at (scalar_size - wide_size) s.now (a + wide_size)) (field_at (scalar_size - wide_size) s.now (b + wide_size)) }
{
    u64_at(s, a + SECOND_OFFSET) == u64_at(s, b + SECOND_OFFSET)
        && u16_at(s, a + THIRD_OFFSET) == u16_at(s, b + THIRD_OFFSET)
        && byte_at(s, a + LAST_OFFSET) == byte_at(s, b + LAST_OFFSET)
}

// Whether the scalars at two places have the same bytes. `front` is the number of the first eight at b;
// most values differ there.
fn same_value(s: &[u8], a: usize, b: usize, front: u64) -> bool
    requires { (a < 2 ^ 60) × (b < 2 ^ 60) × (a + wide_size ≤ length s.now) × (front ≡ u64_at s.now b) }
    ensures { result ≡ same_value s.now a b }
{
    word_at(s, a) == front && same_rest(s, a, b)
}

// The value of item j stands in none of the items before it, which are all there.
fn twice_refusal(s: &[u8], first: usize, j: usize) -> Result<(), Refusal>
    requires { (first < 2 ^ 40) × (j < 2 ^ 16) × (first + item_size * j ≤ length s.now) }
    ensures { outcome_number result ≡ first_refusal (alike_refusal s.now first j) 0 j }
{
    let at = first + ITEM_SIZE * j;
    let front = u64_at(s, at);
    ask(
        !(0..j).any(|i| same_value(s, first + ITEM_SIZE * i, at, front)),
        Refusal::Order,
    )
}

#[tactic(auto, unfolding(crate::specs::Sketches::item_refusal))]
fn item_refusal(s: &[u8], first: usize, j: usize) -> Result<(), Refusal>
    requires { (first < 2 ^ 40) × (j < 2 ^ 16) }
    ensures { outcome_number result ≡ item_refusal s.now first j }
{
    let at = first + ITEM_SIZE * j;
    whole(ITEM_SIZE, s, at)?;
    scalar_refusal(ScalarPlace::Sketch, s, at)?;
    twice_refusal(s, first, j)?;
    let lower = u64_at(s, at + ITEM_LOWER_OFFSET);
    ask(count_lawful(lower), Refusal::Figure)?;
    let error = u64_at(s, at + ITEM_ERROR_OFFSET);
    ask(count_lawful(error), Refusal::Figure)
}

#[tactic(auto, using(rules::proofs::LoopLaws::first_steps))]
fn items_refusal(s: &[u8], first: usize, n: usize) -> Result<(), Refusal>
    requires { (first < 2 ^ 40) × (n < 2 ^ 16) }
    ensures { outcome_number result ≡ first_refusal (item_refusal s.now first) 0 n }
{
    // A loop and no chain: `?` ends it at the first refusal, and iterators have no `try_for_each` here.
    for j in 0..n {
        item_refusal(s, first, j)?;
    }
    Ok(())
}

#[tactic(auto, unfolding(crate::specs::Sketches::sketch_head_refusal))]
fn sketch_head_refusal(s: &[u8], items: usize, at: usize) -> Result<(), Refusal>
    requires { (at < 2 ^ 40) × (items < 2 ^ 40) }
    ensures { outcome_number result ≡ sketch_head_refusal s.now items at }
{
    whole(SKETCH_HEAD_SIZE, s, at)?;
    ask(count_lawful(u64_at(s, at)), Refusal::Figure)?;
    let n = usize::from(u16_at(s, at + SKETCH_COUNT_OFFSET));
    ask(n <= ITEM_LIMIT && items + n <= ITEMS_LIMIT, Refusal::Count)
}

// The sketches before this one hold so many items.
#[tactic(auto, unfolding(crate::specs::Sketches::sketch_refusal))]
pub fn sketch_refusal(s: &[u8], items: usize, at: usize) -> Result<(), Refusal>
    requires { (at < 2 ^ 39) × (items < 2 ^ 40) }
    ensures { outcome_number result ≡ sketch_refusal s.now items at }
{
    sketch_head_refusal(s, items, at)?;
    let n = usize::from(u16_at(s, at + SKETCH_COUNT_OFFSET));
    items_refusal(s, at + SKETCH_HEAD_SIZE, n)
}
