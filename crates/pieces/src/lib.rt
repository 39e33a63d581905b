// Functions for programs in other languages, so that other code can be compared with this. A slice
// passes as a pointer and a length, and `out` must share no byte with what is read. Nothing is asked
// of the bytes: one past the end of what is read counts as 0. The forms are C's: a question and its figure
// are two functions where Rust has an Option, and an order is a number.
#![tactic(auto)]

ghost use Rattle.std.specs.Prelude.{◌≡◌, is_some, unwrap_or};
ghost use Rattle.float.specs.Order.{f64_zero};
ghost use Rattle.power.specs.Power.{power};
ghost use Rattle.root.specs.Root.{root};
ghost use Rattle.scalar.specs.Number.{scalar_to_f64};
ghost use Rattle.scalar_bytes.specs.Reading.{scalar_at};
ghost use Rattle.scalar_bytes.specs.Encoding.{scalar_bytes};
ghost use Rattle.layout.specs.Places.{estimate_size, scalar_size};
ghost use Rattle.estimate.specs.Bytes.{estimate_bytes};
ghost use Rattle.pieces.specs.Pieces.{order_number, pieces_check, pieces_scalar_order, pieces_has_number, pieces_number, pieces_fraction, pieces_intersection, pieces_max_by_value, pieces_min_by_value, pieces_derived, written, with_front};

use estimate::Estimate;
use estimate::bytes::{estimate_at, put_estimate};
use interval::Interval;
use interval::fraction::scalar_interval_fraction;
use interval::intersection::{DistinctIntersection, estimated_distinct_intersection};
use layout::{COLUMN_SIZE, ESTIMATE_SIZE, SCALAR_SIZE};
use range::numbers::number_at;
use records::columns::column_profile_at;
use scalar::order::scalar_order;
use scalar_bytes::reads::scalar_at;
use scalar_bytes::writes::put_scalar;
use std::cmp::Ordering;

// The number of the rule that refuses the sheet, or 0.
#[tactic(auto, unfolding(crate::specs::Pieces::pieces_check))]
#[unsafe(no_mangle)]
pub extern "C" fn pieces_check(sheet: &[u8]) -> u64
    ensures { result ≡ pieces_check sheet.now }
{
    match sheet::check(sheet) {
        Ok(_) => 0,
        Err(refusal) => u64::from(u8::from(refusal)),
    }
}

fn order_number(order: Option<Ordering>) -> u64
    ensures { result ≡ order_number order }
{
    match order {
        None => 0,
        Some(Ordering::Less) => 1,
        Some(Ordering::Equal) => 2,
        Some(Ordering::Greater) => 3,
    }
}

// The order of two scalars of 19 bytes: 0 none, 1 less, 2 equal, 3 greater.
#[tactic(auto, unfolding(crate::specs::Pieces::pieces_scalar_order))]
#[unsafe(no_mangle)]
pub extern "C" fn pieces_scalar_order(left: &[u8], right: &[u8]) -> u64
    ensures { result ≡ pieces_scalar_order left.now right.now }
{
    order_number(scalar_order(scalar_at(left, 0), scalar_at(right, 0)))
}

fn number_of(value: &[u8]) -> Option<f64>
    ensures { result ≡ scalar_to_f64 (scalar_at value.now 0) }
{
    number_at(value, 0)
}

// Whether a scalar of 19 bytes has a number.
#[tactic(auto, unfolding(crate::specs::Pieces::pieces_has_number))]
#[unsafe(no_mangle)]
pub extern "C" fn pieces_has_number(value: &[u8]) -> bool
    ensures { result ≡ pieces_has_number value.now }
{
    number_of(value).is_some()
}

// The number of a scalar of 19 bytes, or +0.
#[tactic(auto, unfolding(crate::specs::Pieces::pieces_number))]
#[unsafe(no_mangle)]
pub extern "C" fn pieces_number(value: &[u8]) -> f64
    ensures { result ≡ pieces_number value.now }
{
    number_of(value).unwrap_or(0.0)
}

// Writes what `EncodedScalarValue::from_scalar` makes of a scalar of 19 bytes, and zeros behind it, to
// the front of out and answers 19. For a Null, of which it makes nothing, that is 19 zeros. Where out
// has no room for them it writes nothing and answers 0.
#[tactic(auto, unfolding(crate::specs::Pieces::written, crate::specs::Pieces::with_front))]
#[unsafe(no_mangle)]
pub extern "C" fn pieces_from_scalar(value: &[u8], out: &mut [u8]) -> u64
    ensures value { result ≡ written scalar_size out.old }
    ensures out_after { out.new ≡ with_front scalar_size (scalar_bytes (scalar_at value.now 0)) out.old }
{
    if out.len() < SCALAR_SIZE {
        return 0;
    }
    put_scalar(out, scalar_at(value, 0));
    SCALAR_SIZE as u64
}

// Where four scalars stand, one behind the other; the first at 0.
const SECOND_SCALAR: usize = SCALAR_SIZE;

const THIRD_SCALAR: usize = SECOND_SCALAR + SCALAR_SIZE;

const FOURTH_SCALAR: usize = THIRD_SCALAR + SCALAR_SIZE;

#[tactic(auto, unfolding(crate::specs::Pieces::pieces_fraction))]
fn fraction_of(scalars: &[u8]) -> Option<f64>
    ensures { result ≡ pieces_fraction scalars.now }
{
    let interval = Interval {
        lower: scalar_at(scalars, 0),
        upper: scalar_at(scalars, SECOND_SCALAR),
    };
    let overlap = Interval {
        lower: scalar_at(scalars, THIRD_SCALAR),
        upper: scalar_at(scalars, FOURTH_SCALAR),
    };
    scalar_interval_fraction(interval, overlap)
}

// Whether four scalars of 19 bytes, one behind the other, have a fraction.
#[unsafe(no_mangle)]
pub extern "C" fn pieces_has_fraction(scalars: &[u8]) -> bool
    ensures { result ≡ is_some (pieces_fraction scalars.now) }
{
    fraction_of(scalars).is_some()
}

// Their fraction, or +0.
#[unsafe(no_mangle)]
pub extern "C" fn pieces_fraction(scalars: &[u8]) -> f64
    ensures { result ≡ unwrap_or (pieces_fraction scalars.now) f64_zero }
{
    fraction_of(scalars).unwrap_or(0.0)
}

#[tactic(auto, unfolding(crate::specs::Pieces::pieces_intersection))]
fn intersection_of(columns: &[u8], left_distinct: f64, right_distinct: f64) -> DistinctIntersection
    ensures { result ≡ pieces_intersection columns.now left_distinct right_distinct }
{
    estimated_distinct_intersection(
        column_profile_at(columns, 0),
        column_profile_at(columns, COLUMN_SIZE),
        left_distinct,
        right_distinct,
    )
}

// How many distinct values two columns of 98 bytes, one behind the other, share.
#[unsafe(no_mangle)]
pub extern "C" fn pieces_distinct_intersection(
    columns: &[u8],
    left_distinct: f64,
    right_distinct: f64,
) -> f64
    ensures { result ≡ (pieces_intersection columns.now left_distinct right_distinct).distinct }
{
    intersection_of(columns, left_distinct, right_distinct).distinct
}

// Whether their ranges are disjoint.
#[unsafe(no_mangle)]
pub extern "C" fn pieces_domains_disjoint(
    columns: &[u8],
    left_distinct: f64,
    right_distinct: f64,
) -> bool
    ensures { result ≡ (pieces_intersection columns.now left_distinct right_distinct).domains_disjoint }
{
    intersection_of(columns, left_distinct, right_distinct).domains_disjoint
}

// Writes the 26 bytes of e to the front of out and answers 26. Where out has no room for them it
// writes nothing and answers 0.
#[tactic(auto, unfolding(crate::specs::Pieces::written, crate::specs::Pieces::with_front))]
fn write_estimate(out: &mut [u8], e: Estimate) -> u64
    ensures value { result ≡ written estimate_size out.old }
    ensures out_after { out.new ≡ with_front estimate_size (estimate_bytes e) out.old }
{
    if out.len() < ESTIMATE_SIZE {
        return 0;
    }
    put_estimate(out, e);
    ESTIMATE_SIZE as u64
}

// Writes the one of two estimates of 26 bytes that has the larger value, as `write_estimate` does.
#[tactic(auto, unfolding(crate::specs::Pieces::pieces_max_by_value))]
#[unsafe(no_mangle)]
pub extern "C" fn pieces_max_by_value(left: &[u8], right: &[u8], out: &mut [u8]) -> u64
    ensures value { result ≡ written estimate_size out.old }
    ensures out_after { out.new ≡ with_front estimate_size (estimate_bytes (pieces_max_by_value left.now right.now)) out.old }
{
    write_estimate(
        out,
        estimate_at(left, 0).max_by_value(estimate_at(right, 0)),
    )
}

// As `pieces_max_by_value`, for the smaller value.
#[tactic(auto, unfolding(crate::specs::Pieces::pieces_min_by_value))]
#[unsafe(no_mangle)]
pub extern "C" fn pieces_min_by_value(left: &[u8], right: &[u8], out: &mut [u8]) -> u64
    ensures value { result ≡ written estimate_size out.old }
    ensures out_after { out.new ≡ with_front estimate_size (estimate_bytes (pieces_min_by_value left.now right.now)) out.old }
{
    write_estimate(
        out,
        estimate_at(left, 0).min_by_value(estimate_at(right, 0)),
    )
}

// Writes what `Estimate::derived` makes of the value and the bounds of an estimate of 26 bytes, as
// `write_estimate` does.
#[tactic(auto, unfolding(crate::specs::Pieces::pieces_derived))]
#[unsafe(no_mangle)]
pub extern "C" fn pieces_derived(value: &[u8], out: &mut [u8]) -> u64
    ensures value { result ≡ written estimate_size out.old }
    ensures out_after { out.new ≡ with_front estimate_size (estimate_bytes (pieces_derived value.now)) out.old }
{
    let e = estimate_at(value, 0);
    write_estimate(
        out,
        Estimate::derived(e.value, e.lower_bound(), e.upper_bound()),
    )
}

#[unsafe(no_mangle)]
pub extern "C" fn pieces_root(x: f64) -> f64
    ensures { result ≡ root x }
{
    root::root(x)
}

#[unsafe(no_mangle)]
pub extern "C" fn pieces_power(x: f64, f: f64) -> f64
    ensures { result ≡ power x f }
{
    power::power(x, f)
}
