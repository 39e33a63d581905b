// A scalar as a value of one type, where it is of that type. No `TryFrom`: five of the types give an i64.
ghost use Rattle.std.specs.Prelude.{◌≡◌};
ghost use Rattle.scalar.specs.Types.{as_boolean, as_int32, as_int64, as_float64, as_decimal128, as_date32, as_month_day_nano, as_day_time};

use crate::Scalar;

#[derive(Clone, Copy, PartialEq, Eq, PartialOrd, Ord)]
pub struct MonthDayNano {
    pub months: i32,
    pub days: i32,
    pub nanoseconds: i64,
}

#[derive(Clone, Copy, PartialEq, Eq, PartialOrd, Ord)]
pub struct DayTime {
    pub days: i32,
    pub milliseconds: i32,
}

// False is 0 and true is 1.
pub fn as_boolean(x: Scalar) -> Option<i64>
    ensures { result ≡ as_boolean x }
{
    match x {
        Scalar::Boolean(b) => Some(i64::from(b)),
        _ => None,
    }
}

pub fn as_int32(x: Scalar) -> Option<i64>
    ensures { result ≡ as_int32 x }
{
    match x {
        Scalar::Int32(v) => Some(i64::from(v)),
        _ => None,
    }
}

pub fn as_int64(x: Scalar) -> Option<i64>
    ensures { result ≡ as_int64 x }
{
    match x {
        Scalar::Int64(v) => Some(v),
        _ => None,
    }
}

pub fn as_float64(x: Scalar) -> Option<f64>
    ensures { result ≡ as_float64 x }
{
    match x {
        Scalar::Float64(v) => Some(v),
        _ => None,
    }
}

// A decimal of this precision and scale.
pub fn as_decimal128(precision: u8, scale: u8, x: Scalar) -> Option<i64>
    ensures { result ≡ as_decimal128 precision scale x }
{
    match x {
        Scalar::Decimal128 {
            value,
            precision: p,
            scale: s,
        } if precision == p && scale == s => Some(value),
        _ => None,
    }
}

pub fn as_date32(x: Scalar) -> Option<i64>
    ensures { result ≡ as_date32 x }
{
    match x {
        Scalar::Date32(v) => Some(i64::from(v)),
        _ => None,
    }
}

pub fn as_month_day_nano(x: Scalar) -> Option<MonthDayNano>
    ensures { result ≡ as_month_day_nano x }
{
    match x {
        Scalar::IntervalMonthDayNano {
            months,
            days,
            nanoseconds,
        } => Some(MonthDayNano {
            months,
            days,
            nanoseconds,
        }),
        _ => None,
    }
}

pub fn as_day_time(x: Scalar) -> Option<DayTime>
    ensures { result ≡ as_day_time x }
{
    match x {
        Scalar::IntervalDayTime { days, milliseconds } => Some(DayTime { days, milliseconds }),
        _ => None,
    }
}
