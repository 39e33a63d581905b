// The scan that finds a record by its number. Nothing promises an order of the records, so it is no
// binary search. Here and in the crates above, the bytes and the start of a section go side by side: the
// bytes stay, and which section it is changes from call to call.
#![tactic(auto)]

ghost use Rattle.std.specs.Prelude.{◌≡◌, ◌≤◌};
ghost use Rattle.scan.specs.Scan.{first_place};

use layout::COUNT_SIZE;
use le::reads::u16_at;

// Where the first record with a number stands. The records have one size and the number in front,
// and their count stands at `start`.
pub fn first_place(s: &[u8], start: u16, size: usize, number: u16) -> Option<u32>
    requires { size ≤ 255 }
    ensures { result ≡ first_place s.now start size number }
{
    let first = usize::from(start) + COUNT_SIZE;
    let count = usize::from(u16_at(s, usize::from(start)));
    let i = (0..count).find(|i| u16_at(s, first + size * i) == number)?;
    Some((first + size * i) as u32)
}
