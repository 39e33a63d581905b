// scalar_interval_fraction of the source's analysis.rs.
ghost use Rattle.std.specs.Prelude.{◌≡◌};
ghost use Rattle.interval.specs.Fraction.{discrete, continuous, decimal, typed_ends, widthless_ends, scalar_ends, ends_fraction, scalar_interval_fraction};

use crate::Interval;
use float::integers::nearest_difference;
use float::order::clamp_unit;
use scalar::types::{
    as_boolean, as_date32, as_day_time, as_decimal128, as_float64, as_int32, as_int64,
    as_month_day_nano,
};
use scalar::{Scalar, is_null};

// An interval and an overlap of it, of numbers of one type.
#[derive(Clone, Copy)]
pub struct Ends<T> {
    pub interval: Interval<T>,
    pub overlap: Interval<T>,
}

// Four ends of one type, by the type.
#[derive(Clone, Copy)]
pub enum ScalarEnds {
    // No Option round the others in its place: of unlike types there are no ends at all.
    NoWidth,
    Integers(Ends<i64>),
    Floats(Ends<f64>),
    Decimals(Ends<i64>),
}

fn discrete(ends: Ends<i64>) -> Option<f64>
    ensures { result ≡ discrete ends }
{
    let width = nearest_difference(ends.interval.upper, ends.interval.lower, true);
    let overlap = nearest_difference(ends.overlap.upper, ends.overlap.lower, true);
    (0.0 < width).then_some(clamp_unit(overlap / width))
}

#[tactic(auto, unfolding(crate::specs::Fraction::continuous))]
fn continuous(ends: Ends<f64>) -> Option<f64>
    ensures { result ≡ continuous ends }
{
    let width = ends.interval.upper - ends.interval.lower;
    if !width.is_finite() || width < 0.0 {
        return None;
    }
    if width == 0.0 {
        return Some(1.0);
    }
    let overlap = ends.overlap.upper - ends.overlap.lower;
    Some(clamp_unit(overlap / width))
}

#[tactic(auto, unfolding(crate::specs::Fraction::decimal))]
fn decimal(ends: Ends<i64>) -> Option<f64>
    ensures { result ≡ decimal ends }
{
    if ends.interval.upper == ends.interval.lower {
        return Some(1.0);
    }
    let width = nearest_difference(ends.interval.upper, ends.interval.lower, false);
    let overlap = nearest_difference(ends.overlap.upper, ends.overlap.lower, false);
    Some(clamp_unit(overlap / width))
}

// The upper end and the overlap's two beside the lower end, where all are of its type.
fn typed_ends<T: Copy>(
    lower: T,
    upper: Option<T>,
    overlap_lower: Option<T>,
    overlap_upper: Option<T>,
) -> Option<Ends<T>>
    ensures { result ≡ typed_ends lower upper overlap_lower overlap_upper }
{
    Some(Ends {
        interval: Interval {
            lower,
            upper: upper?,
        },
        overlap: Interval {
            lower: overlap_lower?,
            upper: overlap_upper?,
        },
    })
}

// Of a type without a width: whether the other three are of it.
fn widthless_ends(upper: bool, overlap_lower: bool, overlap_upper: bool) -> Option<ScalarEnds>
    ensures { result ≡ widthless_ends upper overlap_lower overlap_upper }
{
    (upper && overlap_lower && overlap_upper).then_some(ScalarEnds::NoWidth)
}

// No shorter with the reader lent: each arm would have to say what its reader computes.
#[tactic(auto, unfolding(crate::specs::Fraction::scalar_ends))]
fn scalar_ends(interval: Interval<Scalar>, overlap: Interval<Scalar>) -> Option<ScalarEnds>
    ensures { result ≡ scalar_ends interval.lower interval.upper overlap.lower overlap.upper }
{
    match interval.lower {
        Scalar::Null => widthless_ends(
            is_null(interval.upper),
            is_null(overlap.lower),
            is_null(overlap.upper),
        ),
        Scalar::Boolean(b) => typed_ends(
            i64::from(b),
            as_boolean(interval.upper),
            as_boolean(overlap.lower),
            as_boolean(overlap.upper),
        )
        .map(ScalarEnds::Integers),
        Scalar::Int32(v) => typed_ends(
            i64::from(v),
            as_int32(interval.upper),
            as_int32(overlap.lower),
            as_int32(overlap.upper),
        )
        .map(ScalarEnds::Integers),
        Scalar::Int64(v) => typed_ends(
            v,
            as_int64(interval.upper),
            as_int64(overlap.lower),
            as_int64(overlap.upper),
        )
        .map(ScalarEnds::Integers),
        Scalar::Float64(v) => typed_ends(
            v,
            as_float64(interval.upper),
            as_float64(overlap.lower),
            as_float64(overlap.upper),
        )
        .map(ScalarEnds::Floats),
        Scalar::Decimal128 {
            value,
            precision,
            scale,
        } => typed_ends(
            value,
            as_decimal128(precision, scale, interval.upper),
            as_decimal128(precision, scale, overlap.lower),
            as_decimal128(precision, scale, overlap.upper),
        )
        .map(ScalarEnds::Decimals),
        Scalar::Date32(v) => typed_ends(
            i64::from(v),
            as_date32(interval.upper),
            as_date32(overlap.lower),
            as_date32(overlap.upper),
        )
        .map(ScalarEnds::Integers),
        Scalar::IntervalMonthDayNano { .. } => widthless_ends(
            as_month_day_nano(interval.upper).is_some(),
            as_month_day_nano(overlap.lower).is_some(),
            as_month_day_nano(overlap.upper).is_some(),
        ),
        Scalar::IntervalDayTime { .. } => widthless_ends(
            as_day_time(interval.upper).is_some(),
            as_day_time(overlap.lower).is_some(),
            as_day_time(overlap.upper).is_some(),
        ),
    }
}

#[tactic(auto, unfolding(crate::specs::Fraction::ends_fraction))]
fn ends_fraction(ends: ScalarEnds) -> Option<f64>
    ensures { result ≡ ends_fraction ends }
{
    match ends {
        ScalarEnds::NoWidth => None,
        ScalarEnds::Integers(e) => discrete(e),
        ScalarEnds::Floats(e) => continuous(e),
        ScalarEnds::Decimals(e) => decimal(e),
    }
}

#[tactic(auto, unfolding(crate::specs::Fraction::scalar_interval_fraction))]
pub fn scalar_interval_fraction(
    interval: Interval<Scalar>,
    overlap: Interval<Scalar>,
) -> Option<f64>
    ensures { result ≡ scalar_interval_fraction interval overlap }
{
    ends_fraction(scalar_ends(interval, overlap)?)
}
