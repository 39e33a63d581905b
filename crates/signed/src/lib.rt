// Two's complement, both ways: std's casts, by the definition over the width in bytes. A function
// for each type, as std has them: a generic one would go through a trait whose impls are these.
#![tactic(auto, unfolding(crate::specs::Signed::signed, crate::specs::Signed::unsigned))]

ghost use Rattle.std.specs.Prelude.{◌≡◌};
ghost use Rattle.signed.specs.Signed.{signed, unsigned};

pub fn signed_u32(v: u32) -> i32
    ensures { result ≡ signed 4 v }
{
    v.cast_signed()
}

pub fn signed_u64(v: u64) -> i64
    ensures { result ≡ signed 8 v }
{
    v.cast_signed()
}

pub fn unsigned_i32(x: i32) -> u32
    ensures { result ≡ unsigned 4 x }
{
    x.cast_unsigned()
}

pub fn unsigned_i64(x: i64) -> u64
    ensures { result ≡ unsigned 8 x }
{
    x.cast_unsigned()
}
