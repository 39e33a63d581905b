// Storing a command's bytes in a buffer: the sheet's, or the answer's.
ghost use Rattle.std.specs.Prelude.{◌≡◌, ◌+◌, ◌≤◌, ◌<◌, ◌^◌, length};
ghost use Rattle.sheet_claims.specs.Stores.{copied, store_fits, stored};

use crate::commands::{
    Kind, STORE_BYTES_OFFSET, STORE_COUNT_OFFSET, STORE_LIMIT, STORE_PLACE_OFFSET, kind_of,
};
use le::reads::{byte_at, u16_at, u32_at};

fn copy(s: &mut [u8], at: usize, c: &[u8], from: usize, n: usize)
    requires n_in_bounds { at + n ≤ length s.old }
    requires n_bound { from + n < 2 ^ 32 }
    ensures { s.new ≡ copied s.old at c.now from n }
{
    // byte by byte, since past a command's end its bytes are 0
    for (i, byte) in s[at..at + n].iter_mut().enumerate() {
        *byte = byte_at(c, from + i);
    }
}

// Whether what the command stores stands in it whole and lies within the buffer.
#[tactic(auto, unfolding(crate::specs::Stores::store_fits))]
pub fn store_fits(s: &[u8], c: &[u8]) -> bool
    ensures { result ≡ store_fits s.now c.now }
{
    let n = usize::from(u16_at(c, STORE_COUNT_OFFSET));
    let at = u32_at(c, STORE_PLACE_OFFSET) as usize;
    n <= STORE_LIMIT && at + n <= s.len()
}

// A command of another kind, and one that does not fit, stores nothing.
#[tactic(auto, using(crate::proofs::StoreLaws::fits_room, crate::proofs::StoreLaws::is_of_kind), unfolding(crate::specs::Stores::stored))]
pub fn store(kind: Kind, s: &mut [u8], c: &[u8])
    ensures { s.new ≡ stored kind s.old c.now }
{
    if kind_of(c) == Some(kind) && store_fits(s, c) {
        let at = u32_at(c, STORE_PLACE_OFFSET) as usize;
        let n = usize::from(u16_at(c, STORE_COUNT_OFFSET));
        copy(s, at, c, STORE_BYTES_OFFSET, n);
    }
}
