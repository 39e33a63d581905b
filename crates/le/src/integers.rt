// Signed fields. Each is one line over the unsigned one: a generic function would need a trait that
// holds the same lines.
ghost use Rattle.std.specs.Prelude.{◌≡◌, ◌≤◌, length};
ghost use Rattle.le.specs.Fields.{onto};
ghost use Rattle.le.specs.Integers.{i32_at, i64_at, i32_bytes, i64_bytes};

use crate::reads::{u32_at, u64_at};
use crate::writes::{put_u32, put_u64};
use signed::{signed_u32, signed_u64, unsigned_i32, unsigned_i64};

pub fn i32_at(s: &[u8], at: usize) -> i32
    ensures { result ≡ i32_at s.now at }
{
    signed_u32(u32_at(s, at))
}

pub fn i64_at(s: &[u8], at: usize) -> i64
    ensures { result ≡ i64_at s.now at }
{
    signed_u64(u64_at(s, at))
}

pub fn put_i32(out: &mut [u8], x: i32)
    requires { 4 ≤ length out.old }
    ensures { out.new ≡ onto (i32_bytes x) out.old }
{
    put_u32(out, unsigned_i32(x));
}

pub fn put_i64(out: &mut [u8], x: i64)
    requires { 8 ≤ length out.old }
    ensures { out.new ≡ onto (i64_bytes x) out.old }
{
    put_u64(out, unsigned_i64(x));
}
