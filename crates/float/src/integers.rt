// Whole numbers to binary64, rounded once.
ghost use Rattle.std.specs.Prelude.{◌≡◌, pos, ◌+ℤ◌, ◌-ℤ◌};
ghost use Rattle.std.specs.Float.{binary64};
ghost use Rattle.std.specs.Float.Ieee.{of_int};
ghost use Rattle.float.specs.Integers.{bit};

// The float nearest to x, ties to even.
pub fn nearest_i64(x: i64) -> f64
    ensures { result ≡ of_int binary64 x }
{
    std::num::nearest_i64_to_f64(x)
}

// `u8::from`, with `bit` in its contract. Other crates may call it by this name, so it stays.
pub fn one_if(b: bool) -> u8
    ensures { result ≡ bit b }
{
    u8::from(b)
}

// The float nearest to a - b, or to a - b + 1. The whole number lies from -2^64 to 2^64 and is
// rounded once, ties to even.
pub fn nearest_difference(a: i64, b: i64, plus: bool) -> f64
    ensures { result ≡ of_int binary64 (a -ℤ b +ℤ pos (bit plus)) }
{
    let distance = a.abs_diff(b);
    let more = u64::from(plus);
    if b <= a {
        return match distance.checked_add(more) {
            Some(n) => std::num::nearest_u64_to_f64(n),
            None => 18446744073709551616.0,
        };
    }
    if distance == more {
        return 0.0;
    }
    -std::num::nearest_u64_to_f64(distance - more)
}
