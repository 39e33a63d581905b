// A scalar's 19 bytes, read at any place, and the scalar rules.
//
// A place is a usize, and what is read stands at sums: `at < 2 ^ 61` and its like say that they fit. Each sum is a new
// place, so a type that held the bound would owe it anew at each of them.
ghost use Rattle.std.specs.Prelude.{◌≡◌, ◌+◌, ◌-◌, ◌≤◌, ◌<◌, ◌^◌};
ghost use Rattle.rules.specs.Rules.{ask, outcome_number};
ghost use Rattle.layout.specs.Places.{scalar_value_size};
ghost use Rattle.scalar_bytes.specs.Reading.{tag_allowed, zeros_at, float64_lawful, sign_extended, decimal_lawful, payload_refusal, scalar_refusal, scalar_at, bound_at};

use crate::digits::extension;
use crate::tags::{
    ABSENT, BOOLEAN, DATE32, DAY_TIME, DECIMAL128, FLOAT64, INT32, INT64, MONTH_DAY_NANO, NULL,
};
use float::ranges::{between, zero_or_between};
use layout::{
    BOOLEAN_SIZE, DAY_TIME_MILLISECONDS_OFFSET, DAY_TIME_SIZE, DECIMAL_DIGITS_OFFSET,
    DECIMAL_SCALE_OFFSET, FLOAT_SIZE, INT32_SIZE, INT64_SIZE, MONTH_DAY_NANO_DAYS_OFFSET,
    MONTH_DAY_NANO_NANOSECONDS_OFFSET, MONTH_DAY_NANO_SIZE, SCALAR_VALUE_OFFSET, SCALAR_VALUE_SIZE,
};
use le::floats::f64_at;
use le::integers::{i32_at, i64_at};
use le::reads::{byte_at, u64_at};
use rules::{Refusal, ask};
use scalar::Scalar;

// Zeros are looked for so many at a time.
const WORD: usize = 8;

// Where a scalar stands. Only a bound may be absent, and a sketch holds no Null.
#[derive(Clone, Copy, Debug, PartialEq, Eq)]
pub enum ScalarPlace {
    Literal,
    Bound,
    Sketch,
}

// Whether n bytes from a place on are zeros: eight at a time, and the rest from the next eight. Inlined,
// as n is known where it is called.
#[inline(always)]
pub fn zeros_at(n: usize, s: &[u8], at: usize) -> bool
    requires { (n < 2 ^ 61) × (at < 2 ^ 63) }
    ensures { result ≡ zeros_at n s.now at }
{
    let words = n / WORD;
    (0..words).all(|k| u64_at(s, at + WORD * k) == 0)
        && u64_at(s, at + WORD * words) % (1 << (8 * (n % WORD))) == 0
}

// Whether a sheet may hold x: +0, or a number of either sign no nearer to zero than 2^-400 and no
// farther from it than 2^400.
fn float64_lawful(x: f64) -> bool
    ensures { result ≡ float64_lawful x }
{
    let low = 3.8725919148493183e-121;
    let high = 2.5822498780869086e+120;
    zero_or_between(low, high, x) || between(low, high, -x)
}

// Sixteen bytes that are the sign extension of the lower eight.
#[tactic(auto, using(signed::proofs::SignedLaws::kept, crate::proofs::ReadingLaws::extension_read, le::proofs::FieldLaws::field_below))]
fn sign_extended(s: &[u8], at: usize) -> bool
    requires { at < 2 ^ 63 }
    ensures { result ≡ sign_extended s.now at }
{
    u64_at(s, at + INT64_SIZE) == extension(i64_at(s, at))
}

fn decimal_lawful(s: &[u8], at: usize) -> bool
    requires { at < 2 ^ 62 }
    ensures { result ≡ decimal_lawful s.now at }
{
    let precision = byte_at(s, at);
    let scale = byte_at(s, at + DECIMAL_SCALE_OFFSET);
    (1..=38).contains(&precision) && scale <= 22 && sign_extended(s, at + DECIMAL_DIGITS_OFFSET)
}

fn tag_allowed(place: ScalarPlace, tag: u8) -> bool
    ensures { result ≡ tag_allowed place tag }
{
    match tag {
        NULL => place != ScalarPlace::Sketch,
        ABSENT => place == ScalarPlace::Bound,
        _ => true,
    }
}

// Zeros from the end of a value of so many bytes to the scalar's.
#[inline(always)]
fn zeros_behind(size: usize, s: &[u8], value: usize) -> Result<(), Refusal>
    requires { (size ≤ scalar_value_size) × (value < 2 ^ 62) }
    ensures { outcome_number result ≡ ask (zeros_at (scalar_value_size - size) s.now (value + size)) 5 }
{
    ask(
        zeros_at(SCALAR_VALUE_SIZE - size, s, value + size),
        Refusal::Scalar,
    )
}

// What the value under a tag must keep, and zeros behind it to the scalar's end.
#[tactic(auto, unfolding(crate::specs::Reading::payload_refusal))]
fn payload_refusal(tag: u8, s: &[u8], at: usize) -> Result<(), Refusal>
    requires { at < 2 ^ 61 }
    ensures { outcome_number result ≡ payload_refusal tag s.now at }
{
    let value = at + SCALAR_VALUE_OFFSET;
    match tag {
        NULL | ABSENT => zeros_behind(0, s, value),
        BOOLEAN => {
            ask(byte_at(s, value) <= 1, Refusal::Scalar)?;
            zeros_behind(BOOLEAN_SIZE, s, value)
        }
        INT32 | DATE32 => zeros_behind(INT32_SIZE, s, value),
        INT64 => zeros_behind(INT64_SIZE, s, value),
        FLOAT64 => {
            ask(float64_lawful(f64_at(s, value)), Refusal::Scalar)?;
            zeros_behind(FLOAT_SIZE, s, value)
        }
        DECIMAL128 => ask(decimal_lawful(s, value), Refusal::Scalar),
        MONTH_DAY_NANO => zeros_behind(MONTH_DAY_NANO_SIZE, s, value),
        DAY_TIME => zeros_behind(DAY_TIME_SIZE, s, value),
        _ => Err(Refusal::Scalar),
    }
}

// The rule that the 19 bytes at a place break.
#[tactic(auto, unfolding(crate::specs::Reading::scalar_refusal))]
pub fn scalar_refusal(place: ScalarPlace, s: &[u8], at: usize) -> Result<(), Refusal>
    requires { at < 2 ^ 61 }
    ensures { outcome_number result ≡ scalar_refusal place s.now at }
{
    let tag = byte_at(s, at);
    ask(tag_allowed(place, tag), Refusal::Scalar)?;
    payload_refusal(tag, s, at)
}

// The scalar at a place, by its tag; Null where the tag is no scalar's.
#[tactic(auto, using(signed::proofs::SignedLaws::kept), unfolding(crate::specs::Reading::scalar_at))]
pub fn scalar_at(s: &[u8], at: usize) -> Scalar
    requires { at < 2 ^ 61 }
    ensures { result ≡ scalar_at s.now at }
{
    let value = at + SCALAR_VALUE_OFFSET;
    match byte_at(s, at) {
        BOOLEAN => Scalar::Boolean(byte_at(s, value) == 1),
        INT32 => Scalar::Int32(i32_at(s, value)),
        INT64 => Scalar::Int64(i64_at(s, value)),
        FLOAT64 => Scalar::Float64(f64_at(s, value)),
        DECIMAL128 => Scalar::Decimal128 {
            value: i64_at(s, value + DECIMAL_DIGITS_OFFSET),
            precision: byte_at(s, value),
            scale: byte_at(s, value + DECIMAL_SCALE_OFFSET),
        },
        DATE32 => Scalar::Date32(i32_at(s, value)),
        MONTH_DAY_NANO => Scalar::IntervalMonthDayNano {
            months: i32_at(s, value),
            days: i32_at(s, value + MONTH_DAY_NANO_DAYS_OFFSET),
            nanoseconds: i64_at(s, value + MONTH_DAY_NANO_NANOSECONDS_OFFSET),
        },
        DAY_TIME => Scalar::IntervalDayTime {
            days: i32_at(s, value),
            milliseconds: i32_at(s, value + DAY_TIME_MILLISECONDS_OFFSET),
        },
        _ => Scalar::Null,
    }
}

// The bound at a place: absent where the tag is 255.
#[tactic(auto, unfolding(crate::specs::Reading::bound_at))]
pub fn bound_at(s: &[u8], at: usize) -> Option<Scalar>
    requires { at < 2 ^ 61 }
    ensures { result ≡ bound_at s.now at }
{
    if byte_at(s, at) == ABSENT {
        None
    } else {
        Some(scalar_at(s, at))
    }
}
