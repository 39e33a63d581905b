// Numbers written one after the other.
#![tactic(auto, unfolding(crate::specs::Numbers::numbers_bytes, le::specs::Fields::field_bytes))]

ghost use Rattle.std.specs.Prelude.{◌≡◌, ◌≤◌, [], ◌∷◌, length};
ghost use Rattle.le.specs.Fields.{onto};
ghost use Rattle.layout.specs.Places.{number_size};
ghost use Rattle.number_bytes.specs.Numbers.{numbers_bytes};

use layout::NUMBER_SIZE;
use le::writes::put_u16;

// One number, and how many bytes it takes.
pub fn put_number(out: &mut [u8], n: u16) -> usize
    requires { number_size ≤ length out.old }
    ensures { (result ≡ number_size) × (out.new ≡ onto (numbers_bytes (n ∷ [])) out.old) }
{
    put_u16(out, n);
    NUMBER_SIZE
}
