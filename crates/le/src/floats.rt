// The binary64 numbers of eight bytes. Every NaN pattern reads as the one NaN.
ghost use Rattle.std.specs.Prelude.{◌≡◌, ◌≤◌, length};
ghost use Rattle.le.specs.Fields.{onto};
ghost use Rattle.le.specs.Floats.{f64_at, f64_bytes};

use crate::reads::u64_at;
use crate::writes::put_u64;
use float::bits::{bits_of_float, float_of_bits};

pub fn f64_at(s: &[u8], at: usize) -> f64
    ensures { result ≡ f64_at s.now at }
{
    float_of_bits(u64_at(s, at))
}

pub fn put_f64(out: &mut [u8], x: f64)
    requires { 8 ≤ length out.old }
    ensures { out.new ≡ onto (f64_bytes x) out.old }
{
    put_u64(out, bits_of_float(x));
}
