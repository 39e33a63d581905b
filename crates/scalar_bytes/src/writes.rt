// A scalar's 19 bytes, written to the front of the slice that is lent. That there is room is asked of the caller, and
// not told by an array's type: the caller has a slice, and would have to cut an array out of it for each scalar.
ghost use Rattle.std.specs.Prelude.{◌≡◌, ◌∷◌, ◌++◌, [], ◌≤◌, length, replicate};
ghost use Rattle.float.specs.Integers.{bit};
ghost use Rattle.layout.specs.Places.{scalar_size, decimal_digits_size};
ghost use Rattle.le.specs.Fields.{onto, field_bytes, u64_bytes};
ghost use Rattle.signed.specs.Signed.{unsigned};
ghost use Rattle.le.specs.Integers.{i32_bytes, i64_bytes};
ghost use Rattle.scalar_bytes.specs.Encoding.{encoded_bits, extension, encoded_bytes, padded, scalar_bytes, bound_bytes};

use crate::digits::extension;
use crate::tags::{
    ABSENT, BOOLEAN, DATE32, DAY_TIME, DECIMAL128, FLOAT64, INT32, INT64, MONTH_DAY_NANO, NULL,
};
use float::bits::bits_of_float;
use layout::{
    DAY_TIME_MILLISECONDS_OFFSET, DECIMAL_DIGITS_OFFSET, DECIMAL_SCALE_OFFSET, INT64_SIZE,
    MONTH_DAY_NANO_DAYS_OFFSET, MONTH_DAY_NANO_NANOSECONDS_OFFSET, SCALAR_SIZE,
    SCALAR_VALUE_OFFSET,
};
use le::integers::{put_i32, put_i64};
use le::writes::{put_byte, put_u16, put_u64};
use scalar::Scalar;

// Parts of a value, from the scalar's first byte.
const SCALE_AT: usize = SCALAR_VALUE_OFFSET + DECIMAL_SCALE_OFFSET;

const DIGITS_AT: usize = SCALAR_VALUE_OFFSET + DECIMAL_DIGITS_OFFSET;

const EXTENSION_AT: usize = DIGITS_AT + INT64_SIZE;

const DAYS_AT: usize = SCALAR_VALUE_OFFSET + MONTH_DAY_NANO_DAYS_OFFSET;

const NANOSECONDS_AT: usize = SCALAR_VALUE_OFFSET + MONTH_DAY_NANO_NANOSECONDS_OFFSET;

const MILLISECONDS_AT: usize = SCALAR_VALUE_OFFSET + DAY_TIME_MILLISECONDS_OFFSET;

#[tactic(auto, unfolding(le::specs::Fields::onto))]
fn put_zeros(out: &mut [u8])
    requires { scalar_size ≤ length out.old }
    ensures { out.new ≡ onto (replicate scalar_size 0) out.old }
{
    out[..SCALAR_SIZE].fill(0);
}

fn put_boolean(out: &mut [u8], b: bool)
    requires { scalar_size ≤ length out.old }
    ensures { out.new ≡ onto (1 ∷ bit b ∷ []) out.old }
{
    put_byte(out, BOOLEAN);
    put_byte(&mut out[SCALAR_VALUE_OFFSET..], u8::from(b));
}

fn put_int32(out: &mut [u8], tag: u8, x: i32)
    requires { scalar_size ≤ length out.old }
    ensures { out.new ≡ onto (tag ∷ i32_bytes x) out.old }
{
    put_byte(out, tag);
    put_i32(&mut out[SCALAR_VALUE_OFFSET..], x);
}

fn put_int64(out: &mut [u8], x: i64)
    requires { scalar_size ≤ length out.old }
    ensures { out.new ≡ onto (3 ∷ i64_bytes x) out.old }
{
    put_byte(out, INT64);
    put_i64(&mut out[SCALAR_VALUE_OFFSET..], x);
}

// +0 for either zero, and one pattern for every NaN.
fn encoded_bits(x: f64) -> u64
    ensures { result ≡ encoded_bits x }
{
    if x == 0.0 { 0 } else { bits_of_float(x) }
}

fn put_float64(out: &mut [u8], x: f64)
    requires { scalar_size ≤ length out.old }
    ensures { out.new ≡ onto (4 ∷ u64_bytes (encoded_bits x)) out.old }
{
    put_byte(out, FLOAT64);
    put_u64(&mut out[SCALAR_VALUE_OFFSET..], encoded_bits(x));
}

fn put_decimal(out: &mut [u8], value: i64, precision: u8, scale: u8)
    requires { scalar_size ≤ length out.old }
    ensures { out.new ≡ onto (5 ∷ precision ∷ scale ∷ field_bytes decimal_digits_size (unsigned decimal_digits_size value)) out.old }
{
    put_byte(out, DECIMAL128);
    put_byte(&mut out[SCALAR_VALUE_OFFSET..], precision);
    put_byte(&mut out[SCALE_AT..], scale);
    put_i64(&mut out[DIGITS_AT..], value);
    put_u64(&mut out[EXTENSION_AT..], extension(value));
}

fn put_month_day_nano(out: &mut [u8], months: i32, days: i32, nanoseconds: i64)
    requires { scalar_size ≤ length out.old }
    ensures { out.new ≡ onto (8 ∷ (i32_bytes months ++ (i32_bytes days ++ i64_bytes nanoseconds))) out.old }
{
    put_int32(out, MONTH_DAY_NANO, months);
    put_i32(&mut out[DAYS_AT..], days);
    put_i64(&mut out[NANOSECONDS_AT..], nanoseconds);
}

fn put_day_time(out: &mut [u8], days: i32, milliseconds: i32)
    requires { scalar_size ≤ length out.old }
    ensures { out.new ≡ onto (9 ∷ (i32_bytes days ++ i32_bytes milliseconds)) out.old }
{
    put_int32(out, DAY_TIME, days);
    put_i32(&mut out[MILLISECONDS_AT..], milliseconds);
}

#[tactic(auto, using(signed::proofs::SignedLaws::kept), unfolding(crate::specs::Encoding::encoded_bytes))]
fn put_encoded(out: &mut [u8], x: Scalar)
    requires { scalar_size ≤ length out.old }
    ensures { out.new ≡ onto (encoded_bytes x) out.old }
{
    match x {
        Scalar::Null => put_byte(out, NULL),
        Scalar::Boolean(b) => put_boolean(out, b),
        Scalar::Int32(v) => put_int32(out, INT32, v),
        Scalar::Int64(v) => put_int64(out, v),
        Scalar::Float64(v) => put_float64(out, v),
        Scalar::Decimal128 {
            value,
            precision,
            scale,
        } => put_decimal(out, value, precision, scale),
        Scalar::Date32(v) => put_int32(out, DATE32, v),
        Scalar::IntervalMonthDayNano {
            months,
            days,
            nanoseconds,
        } => put_month_day_nano(out, months, days, nanoseconds),
        Scalar::IntervalDayTime { days, milliseconds } => put_day_time(out, days, milliseconds),
    }
}

#[tactic(auto, using(le::proofs::OntoLaws::onto_zeros, crate::proofs::WritingLaws::encoded_small))]
pub fn put_scalar(out: &mut [u8], x: Scalar)
    requires { scalar_size ≤ length out.old }
    ensures { out.new ≡ onto (scalar_bytes x) out.old }
{
    put_zeros(out);
    put_encoded(out, x);
}

#[tactic(auto, unfolding(crate::specs::Encoding::bound_bytes))]
pub fn put_bound(out: &mut [u8], x: Option<Scalar>)
    requires { scalar_size ≤ length out.old }
    ensures { out.new ≡ onto (bound_bytes x) out.old }
{
    match x {
        None => put_absent(out),
        Some(v) => put_scalar(out, v),
    }
}

fn put_absent(out: &mut [u8])
    requires { scalar_size ≤ length out.old }
    ensures { out.new ≡ onto (padded (255 ∷ [])) out.old }
{
    put_zeros(out);
    put_byte(out, ABSENT);
}
