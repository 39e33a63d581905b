// The source's ScalarValue: its types and its order. Its number is defined in specs/Number.
#![tactic(auto)]

ghost use Rattle.std.specs.Prelude.{◌≡◌};
ghost use Rattle.scalar.specs.Types.{is_null};

pub mod order;
pub mod types;

// Cases as in the source, without Utf8. Null has no type beside it, and a decimal's value lies
// within 64 bits.
#[derive(Clone, Copy)]
pub enum Scalar {
    Null,
    Boolean(bool),
    Int32(i32),
    Int64(i64),
    Float64(f64),
    Decimal128 {
        value: i64,
        precision: u8,
        scale: u8,
    },
    Date32(i32),
    IntervalMonthDayNano {
        months: i32,
        days: i32,
        nanoseconds: i64,
    },
    IntervalDayTime {
        days: i32,
        milliseconds: i32,
    },
}

pub fn is_null(x: Scalar) -> bool
    ensures { result ≡ is_null x }
{
    matches!(x, Scalar::Null)
}
