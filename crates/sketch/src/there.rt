// Fields of bytes that are there, read with no test, each beside a reader of `le` that tests: among a sketch's
// items one test stands in front of the loop. So an item takes 7 instructions, of an Int64, and 13 by the
// readers of `le`.
ghost use Rattle.std.specs.Prelude.{◌≡◌, ◌+◌, ◌<◌, ◌≤◌, length};
ghost use Rattle.layout.specs.Places.{float_size, int32_size, int64_size};
ghost use Rattle.le.specs.Fields.{byte_at};
ghost use Rattle.le.specs.Integers.{i32_at, i64_at};
ghost use Rattle.le.specs.Floats.{f64_at};

use float::bits::float_of_bits;
use le::reads::{quad_at, word_at};
use signed::{signed_u32, signed_u64};

pub fn byte_there(s: &[u8], at: usize) -> u8
    requires { at < length s.now }
    ensures { result ≡ byte_at s.now at }
{
    s[at]
}

pub fn i32_there(s: &[u8], at: usize) -> i32
    requires { at + int32_size ≤ length s.now }
    ensures { result ≡ i32_at s.now at }
{
    signed_u32(quad_at(s, at) as u32)
}

pub fn i64_there(s: &[u8], at: usize) -> i64
    requires { at + int64_size ≤ length s.now }
    ensures { result ≡ i64_at s.now at }
{
    signed_u64(word_at(s, at))
}

pub fn f64_there(s: &[u8], at: usize) -> f64
    requires { at + float_size ≤ length s.now }
    ensures { result ≡ f64_at s.now at }
{
    float_of_bits(word_at(s, at))
}
