// Whether the scalar at a place is equal to a value, by its bytes where they stand: the tag first,
// and behind it the numbers.
ghost use Rattle.std.specs.Prelude.{◌≡◌, ◌+◌, ◌^◌, ◌<◌, ◌≤◌, ◌&&◌, length, pos, eqb};
ghost use Rattle.float.specs.Integers.{bit};
ghost use Rattle.layout.specs.Places.{scalar_size, float_size, int32_size, int64_size, month_day_nano_days_offset, month_day_nano_nanoseconds_offset, month_day_nano_size, day_time_milliseconds_offset, day_time_size};
ghost use Rattle.le.specs.Fields.{byte_at};
ghost use Rattle.le.specs.Integers.{i32_at, i64_at};
ghost use Rattle.le.specs.Floats.{f64_at};
ghost use Rattle.std.specs.Ordering.{float_partial_cmp};
ghost use Rattle.scalar.specs.Order.{integer_order, scalar_order, is_equal};
ghost use Rattle.scalar_bytes.specs.Reading.{scalar_at};

use crate::there::{byte_there, f64_there, i32_there, i64_there};
use layout::{
    DAY_TIME_MILLISECONDS_OFFSET, DECIMAL_DIGITS_OFFSET, DECIMAL_SCALE_OFFSET,
    MONTH_DAY_NANO_DAYS_OFFSET, MONTH_DAY_NANO_NANOSECONDS_OFFSET, SCALAR_VALUE_OFFSET,
};
use scalar::Scalar;
use scalar::order::scalar_order;
use scalar_bytes::reads::scalar_at;
use scalar_bytes::tags::{
    BOOLEAN, DATE32, DAY_TIME, DECIMAL128, FLOAT64, INT32, INT64, MONTH_DAY_NANO,
};
use std::cmp::Ordering;

#[tactic(auto, using(crate::proofs::ValueLaws::boolean_test))]
fn is_bool(s: &[u8], at: usize, x: bool) -> bool
    requires { at < length s.now }
    ensures { result ≡ is_equal (integer_order (pos (bit (eqb (byte_at s.now at) 1))) (pos (bit x))) }
{
    (byte_there(s, at) == 1) == x
}

// One for each type: a generic one would go through a trait whose impls are these.
#[tactic(auto, using(crate::proofs::ValueLaws::read_test))]
fn is_i32(s: &[u8], at: usize, x: i32) -> bool
    requires { at + int32_size ≤ length s.now }
    ensures { result ≡ is_equal (integer_order (i32_at s.now at) x) }
{
    i32_there(s, at) == x
}

#[tactic(auto, using(crate::proofs::ValueLaws::read_test))]
fn is_i64(s: &[u8], at: usize, x: i64) -> bool
    requires { at + int64_size ≤ length s.now }
    ensures { result ≡ is_equal (integer_order (i64_at s.now at) x) }
{
    i64_there(s, at) == x
}

#[tactic(auto, using(crate::proofs::ValueLaws::float_test))]
fn is_f64(s: &[u8], at: usize, x: f64) -> bool
    requires { at + float_size ≤ length s.now }
    ensures { result ≡ is_equal (float_partial_cmp (f64_at s.now at) x) }
{
    f64_there(s, at) == x
}

fn is_month_day_nano(s: &[u8], at: usize, months: i32, days: i32, nanoseconds: i64) -> bool
    requires { at + month_day_nano_size ≤ length s.now }
    ensures { result ≡ ((is_equal (integer_order (i32_at s.now at) months) && is_equal (integer_order (i32_at s.now (at + month_day_nano_days_offset)) days)) && is_equal (integer_order (i64_at s.now (at + month_day_nano_nanoseconds_offset)) nanoseconds)) }
{
    is_i32(s, at, months)
        && is_i32(s, at + MONTH_DAY_NANO_DAYS_OFFSET, days)
        && is_i64(s, at + MONTH_DAY_NANO_NANOSECONDS_OFFSET, nanoseconds)
}

fn is_day_time(s: &[u8], at: usize, days: i32, milliseconds: i32) -> bool
    requires { at + day_time_size ≤ length s.now }
    ensures { result ≡ (is_equal (integer_order (i32_at s.now at) days) && is_equal (integer_order (i32_at s.now (at + day_time_milliseconds_offset)) milliseconds)) }
{
    is_i32(s, at, days) && is_i32(s, at + DAY_TIME_MILLISECONDS_OFFSET, milliseconds)
}

// Null has no order, so it is equal to nothing. The tag is read arm by arm: once before them costs a
// lookup an instruction for each item.
#[tactic(auto, using(crate::proofs::ValueLaws::values))]
pub fn has_value_there(s: &[u8], at: usize, value: Scalar) -> bool
    requires { at + scalar_size ≤ length s.now }
    ensures { result ≡ is_equal (scalar_order (scalar_at s.now at) value) }
{
    let first = at + SCALAR_VALUE_OFFSET;
    match value {
        Scalar::Null => false,
        Scalar::Boolean(x) => byte_there(s, at) == BOOLEAN && is_bool(s, first, x),
        Scalar::Int32(x) => byte_there(s, at) == INT32 && is_i32(s, first, x),
        Scalar::Int64(x) => byte_there(s, at) == INT64 && is_i64(s, first, x),
        Scalar::Float64(x) => byte_there(s, at) == FLOAT64 && is_f64(s, first, x),
        Scalar::Decimal128 {
            value: digits,
            precision,
            scale,
        } => {
            byte_there(s, at) == DECIMAL128
                && byte_there(s, first) == precision
                && byte_there(s, first + DECIMAL_SCALE_OFFSET) == scale
                && is_i64(s, first + DECIMAL_DIGITS_OFFSET, digits)
        }
        Scalar::Date32(x) => byte_there(s, at) == DATE32 && is_i32(s, first, x),
        Scalar::IntervalMonthDayNano {
            months,
            days,
            nanoseconds,
        } => {
            byte_there(s, at) == MONTH_DAY_NANO
                && is_month_day_nano(s, first, months, days, nanoseconds)
        }
        Scalar::IntervalDayTime { days, milliseconds } => {
            byte_there(s, at) == DAY_TIME && is_day_time(s, first, days, milliseconds)
        }
    }
}

// As `has_value_there`, where the end may cut the bytes.
pub fn has_value(s: &[u8], at: usize, value: Scalar) -> bool
    requires { at < 2 ^ 60 }
    ensures { result ≡ is_equal (scalar_order (scalar_at s.now at) value) }
{
    scalar_order(scalar_at(s, at), value) == Some(Ordering::Equal)
}
