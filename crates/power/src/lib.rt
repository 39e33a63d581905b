// The power of document 01: products for the whole part of the exponent, repeated square roots for
// 30 binary digits of its fraction, every operation rounded.
#![tactic(auto)]

ghost use Rattle.std.specs.Prelude.{◌≡◌, ◌-◌, ◌<◌, false, T, pos};
ghost use Rattle.std.specs.Float.{fin};
ghost use Rattle.std.specs.Float.Ieee.{size, le, lt};
ghost use Rattle.float.specs.Order.{f64_one};
ghost use Rattle.power.specs.Power.{whole_power, root_power, fraction_digits, finite_power, power};

use root::root;

// So many binary digits of an exponent's fraction count.
const FRACTION_DIGITS: u32 = 30;

// 2 to the FRACTION_DIGITS.
const FRACTION_WEIGHT: f64 = 1073741824.0;

// 2^63.
const EXPONENT_LIMIT: f64 = 9223372036854775808.0;

// x to the whole power n.
fn whole_power(x: f64, n: u64) -> f64
    requires { 0 < n }
    ensures { result ≡ whole_power (size n - 1) x n }
{
    let mut p = x;
    for i in (0..n.ilog2()).rev() {
        p *= p;
        if (n >> i) % 2 == 1 {
            p *= x;
        }
    }
    p
}

// p times a repeated root of x for each of the 30 digits of u that is 1. No root is taken once the
// digits left are all 0.
fn root_power(x: f64, p: f64, u: u64) -> f64
    ensures { result ≡ root_power 30 x p u }
{
    let mut r = x;
    let mut q = p;
    for i in (u.trailing_zeros()..FRACTION_DIGITS).rev() {
        r = root(r);
        if (u >> i) % 2 == 1 {
            q *= r;
        }
    }
    q
}

// The first 30 binary digits of f's fraction, where f lies from 1 to below 2^63.
fn fraction_digits(f: f64) -> u64
    requires at_least_one { T (le f64_one f) }
    requires below_limit { T (lt f (fin false 1 (pos 63))) }
    ensures { result ≡ fraction_digits f }
{
    std::num::truncating_f64_to_u64(f.fract() * FRACTION_WEIGHT)
}

// x to the power f, where f lies from 1 to below 2^63.
#[tactic(auto, using(crate::proofs::Exponents::above_minus_one, crate::proofs::Exponents::below_64, crate::proofs::Exponents::whole_pos), unfolding(crate::specs::Power::finite_power))]
fn finite_power(x: f64, f: f64) -> f64
    requires at_least_one { T (le f64_one f) }
    requires below_limit { T (lt f (fin false 1 (pos 63))) }
    ensures { result ≡ finite_power x f }
{
    let n = std::num::truncating_f64_to_u64(f);
    root_power(x, whole_power(x, n), fraction_digits(f))
}

// x to the power f, for every pair of floats.
pub fn power(x: f64, f: f64) -> f64
    ensures { result ≡ power x f }
{
    if x == 1.0 {
        1.0
    } else if f >= EXPONENT_LIMIT {
        0.0
    } else if f >= 1.0 {
        finite_power(x, f)
    } else {
        f64::NAN
    }
}
