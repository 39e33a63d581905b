// IEEE 754's square root at binary64: all digits and the remainder, then one rounding.
#![tactic(auto)]

ghost use Rattle.std.specs.Prelude.{◌≡◌, ◌+◌, ◌*◌, ◌^◌, ◌<◌, ◌≤◌, false, from_bits};
ghost use Rattle.std.specs.Float.{binary64};
ghost use Rattle.std.specs.Float.Ieee.{units};
ghost use Rattle.root.specs.Root.{root, round_root};
ghost use Rattle.root.specs.Digits.{Shift, rounded_half};

mod digits;

// 2^52: a float's bits are its exponent's field times this and what stands below the field.
const FIELD_UNIT: u64 = 0x10_0000_0000_0000;

// The bits of infinity.
const INFINITY_BITS: u64 = 0x7ff0_0000_0000_0000;

// Half of the square root of digits * digits + rest, to the nearest whole number, a tie to the even
// one. The only rounding.
fn rounded_half(digits: u64, rest: u64) -> u64
    requires { digits < 2 ^ 54 }
    ensures { result ≡ rounded_half digits rest }
{
    if rest == 0 {
        return (digits + digits / 2 % 2) / 2;
    }
    (digits + 1) / 2
}

// How far left d goes to have 53 digits.
fn shift_of(d: u64) -> u64
    requires { (0 < d) × (d < 2 ^ 53) }
    ensures { Shift d result }
{
    u64::from(d.leading_zeros()) - 11
}

// m * 2^k smallest values, with an m of 53 digits, or 2^53.
#[tactic(auto, using(float::proofs::BitLaws::no_nan, float::proofs::BitLaws::units_bits))]
fn assembled(m: u64, k: u64) -> f64
    requires { (2 ^ 52 ≤ m) × (m ≤ 2 ^ 53) × (k < 2000) }
    ensures { result ≡ units binary64 false m k }
{
    f64::from_bits(k * FIELD_UNIT + m)
}

// The root of d * 2^e squares of the smallest value.
#[tactic(auto, using(crate::proofs::Scaled::scaled))]
fn scaled_root(d: u64, e: u64) -> f64
    requires { (0 < d) × (d < 2 ^ 53) × (1074 ≤ e) × (e < 3120) }
    ensures { result ≡ round_root binary64 (d * 2 ^ e) }
{
    let s = shift_of(d);
    let m = d << s;
    let p = e - s;
    let g = digits::root_digits(m * (1 + p % 2));
    assembled(rounded_half(g.digits, g.rest), p / 2 - 26)
}

// The root of the positive finite number with the bits b.
fn positive_root(b: u64) -> f64
    requires { (0 < b) × (b < 0x7ff0_0000_0000_0000) }
    ensures { result ≡ root (from_bits binary64 b) }
{
    let field = b / FIELD_UNIT;
    let low = b % FIELD_UNIT;
    if field == 0 {
        return scaled_root(low, 1074);
    }
    scaled_root(low + FIELD_UNIT, field + 1073)
}

// squareRoot of IEEE 754, for every float.
pub fn root(x: f64) -> f64
    ensures { result ≡ root x }
{
    if x > 0.0 {
        let b = x.to_bits();
        if b < INFINITY_BITS {
            return positive_root(b);
        }
        return x;
    }
    if x < 0.0 {
        return f64::NAN;
    }
    x
}
