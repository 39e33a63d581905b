// range_selectivity of the source's analysis.rs.
#![tactic(auto)]

ghost use Rattle.std.specs.Prelude.{◌≡◌, ◌<◌, ◌^◌};
ghost use Rattle.scalar_bytes.specs.Reading.{scalar_at};
ghost use Rattle.records.specs.Columns.{column_profile_at};
ghost use Rattle.range.specs.Range.{width, part_below, part_above, selected, range_of, range_selectivity};

use crate::numbers::{bound_number_at, number_at};
use crate::selectivity::unit_estimate;
use estimate::Estimate;
use float::order::{absolute, clamp_unit, f64_max};
use layout::{COLUMN_LOWER_OFFSET, COLUMN_UPPER_OFFSET};
use records::expressions::BinaryOp;

pub mod numbers;
pub mod selectivity;

// `min` and `max` are two parameters from here on: a struct of them would be made in one place, and taken
// apart in each function.
#[tactic(auto, using(crate::proofs::BitLaws::one_bits), unfolding(crate::specs::Range::width))]
fn width(min: f64, max: f64) -> f64
    ensures { result ≡ width min max }
{
    f64_max(absolute(max - min), 1.0)
}

fn part_below(min: f64, max: f64, value: f64) -> f64
    ensures { result ≡ part_below min max value }
{
    clamp_unit((value - min) / width(min, max))
}

fn part_above(min: f64, max: f64, value: f64) -> f64
    ensures { result ≡ part_above min max value }
{
    clamp_unit((max - value) / width(min, max))
}

#[tactic(auto, unfolding(crate::specs::Range::selected))]
fn selected(op: BinaryOp, fallback: f64, min: f64, max: f64, value: f64) -> f64
    ensures { result ≡ selected op fallback min max value }
{
    match op {
        BinaryOp::Lt | BinaryOp::LtEq => part_below(min, max, value),
        BinaryOp::Gt | BinaryOp::GtEq => part_above(min, max, value),
        _ => fallback,
    }
}

#[tactic(auto, unfolding(crate::specs::Range::range_of))]
fn range_of(
    op: BinaryOp,
    fallback: f64,
    min: Option<f64>,
    max: Option<f64>,
    value: Option<f64>,
) -> Estimate
    ensures { result ≡ range_of op fallback min max value }
{
    match (min, max, value) {
        (Some(min), Some(max), Some(value)) => {
            unit_estimate(selected(op, fallback, min, max, value))
        }
        _ => unit_estimate(fallback),
    }
}

// Of the profile at a place, against the scalar at a place. Two numbers and no struct: each is found on its
// own, and `Compared` holds both.
#[tactic(auto, unfolding(crate::specs::Range::range_selectivity, records::specs::Columns::column_profile_at))]
pub fn range_selectivity(
    s: &[u8],
    profile: usize,
    literal: usize,
    op: BinaryOp,
    fallback: f64,
) -> Estimate
    requires { (profile < 2 ^ 40) × (literal < 2 ^ 40) }
    ensures { result ≡ range_selectivity (column_profile_at s.now profile) (scalar_at s.now literal) op fallback }
{
    let min = bound_number_at(s, profile + COLUMN_LOWER_OFFSET);
    let max = bound_number_at(s, profile + COLUMN_UPPER_OFFSET);
    range_of(op, fallback, min, max, number_at(s, literal))
}
