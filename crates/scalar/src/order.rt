// scalar_order of the source's catalog.rs.
ghost use Rattle.std.specs.Prelude.{◌≡◌, option_and_then};
ghost use Rattle.scalar.specs.Order.{scalar_order};

use crate::Scalar;
use crate::types::{
    DayTime, MonthDayNano, as_boolean, as_date32, as_day_time, as_decimal128, as_float64, as_int32,
    as_int64, as_month_day_nano,
};
use std::cmp::Ordering;

// A value and one of its type, if there is one.
fn option_order<T: PartialOrd + Copy>(left: T, right: Option<T>) -> Option<Ordering>
    ensures { result ≡ option_and_then (T.partial_cmp left) right }
{
    left.partial_cmp(&right?)
}

// The source's function, and not an impl of PartialOrd: a Null has no order, not even to itself, and `==` would have to
// say so too.
#[tactic(auto, unfolding(crate::specs::Order::scalar_order))]
pub fn scalar_order(left: Scalar, right: Scalar) -> Option<Ordering>
    ensures { result ≡ scalar_order left right }
{
    match left {
        Scalar::Null => None,
        Scalar::Boolean(b) => option_order(i64::from(b), as_boolean(right)),
        Scalar::Int32(v) => option_order(i64::from(v), as_int32(right)),
        Scalar::Int64(v) => option_order(v, as_int64(right)),
        Scalar::Float64(v) => option_order(v, as_float64(right)),
        Scalar::Decimal128 {
            value,
            precision,
            scale,
        } => option_order(value, as_decimal128(precision, scale, right)),
        Scalar::Date32(v) => option_order(i64::from(v), as_date32(right)),
        Scalar::IntervalMonthDayNano {
            months,
            days,
            nanoseconds,
        } => option_order(
            MonthDayNano {
                months,
                days,
                nanoseconds,
            },
            as_month_day_nano(right),
        ),
        Scalar::IntervalDayTime { days, milliseconds } => {
            option_order(DayTime { days, milliseconds }, as_day_time(right))
        }
    }
}
