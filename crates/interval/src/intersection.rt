// estimated_distinct_intersection of the source's analysis.rs.
ghost use Rattle.std.specs.Prelude.{◌≡◌};
ghost use Rattle.interval.specs.Intersection.{overlapping, disjoint, overlap_lower, overlap_upper, overlap, at_least_point, shared_distinct, overlap_distinct, bounded_intersection, zipped_intersection, estimated_distinct_intersection};

use crate::fraction::scalar_interval_fraction;
use crate::{Interval, zip_bounds};
use float::order::{f64_max, f64_min};
use records::columns::ColumnProfile;
use scalar::Scalar;
use scalar::order::scalar_order;
use std::cmp::Ordering;

// The source's struct: both fields are compared with the source's, of disjoint domains too.
#[derive(Clone, Copy)]
pub struct DistinctIntersection {
    pub distinct: f64,
    pub domains_disjoint: bool,
}

fn overlapping(distinct: f64) -> DistinctIntersection
    ensures { result ≡ overlapping distinct }
{
    DistinctIntersection {
        distinct,
        domains_disjoint: false,
    }
}

// One upper bound strictly below the other lower one.
#[tactic(auto, unfolding(crate::specs::Intersection::disjoint))]
fn disjoint(left: Interval<Scalar>, right: Interval<Scalar>) -> bool
    ensures { result ≡ disjoint left right }
{
    scalar_order(left.upper, right.lower) == Some(Ordering::Less)
        || scalar_order(right.upper, left.lower) == Some(Ordering::Less)
}

// No plainer as one function of the order: the laws would need a word for "this order".
#[tactic(auto, unfolding(crate::specs::Intersection::overlap_lower))]
fn overlap_lower(left: Scalar, right: Scalar) -> Scalar
    ensures { result ≡ overlap_lower left right }
{
    if scalar_order(left, right) == Some(Ordering::Less) {
        return right;
    }
    left
}

#[tactic(auto, unfolding(crate::specs::Intersection::overlap_upper))]
fn overlap_upper(left: Scalar, right: Scalar) -> Scalar
    ensures { result ≡ overlap_upper left right }
{
    if scalar_order(left, right) == Some(Ordering::Greater) {
        return right;
    }
    left
}

fn overlap(left: Interval<Scalar>, right: Interval<Scalar>) -> Interval<Scalar>
    ensures { result ≡ overlap left right }
{
    Interval {
        lower: overlap_lower(left.lower, right.lower),
        upper: overlap_upper(left.upper, right.upper),
    }
}

fn at_least_point(point: bool, estimate: f64) -> f64
    ensures { result ≡ at_least_point point estimate }
{
    if point {
        return f64_max(estimate, 1.0);
    }
    estimate
}

// The distincts stay apart: they go with fractions, with intervals and with profiles.
#[tactic(auto, unfolding(crate::specs::Intersection::shared_distinct))]
fn shared_distinct(
    left: Option<f64>,
    right: Option<f64>,
    point: bool,
    left_distinct: f64,
    right_distinct: f64,
) -> f64
    ensures { result ≡ shared_distinct left right point left_distinct right_distinct }
{
    let smaller = f64_min(left_distinct, right_distinct);
    let (Some(x), Some(y)) = (left, right) else {
        return smaller;
    };
    let parts = f64_min(left_distinct * x, right_distinct * y);
    at_least_point(point, f64_min(parts, smaller))
}

#[tactic(auto, unfolding(crate::specs::Intersection::overlap_distinct))]
fn overlap_distinct(
    left: Interval<Scalar>,
    right: Interval<Scalar>,
    left_distinct: f64,
    right_distinct: f64,
) -> f64
    ensures { result ≡ overlap_distinct left right left_distinct right_distinct }
{
    let both = overlap(left, right);
    let left_fraction = scalar_interval_fraction(left, both);
    let right_fraction = scalar_interval_fraction(right, both);
    let point = scalar_order(both.lower, both.upper) == Some(Ordering::Equal);
    shared_distinct(
        left_fraction,
        right_fraction,
        point,
        left_distinct,
        right_distinct,
    )
}

#[tactic(auto, unfolding(crate::specs::Intersection::bounded_intersection))]
fn bounded_intersection(
    left: Interval<Scalar>,
    right: Interval<Scalar>,
    left_distinct: f64,
    right_distinct: f64,
) -> DistinctIntersection
    ensures { result ≡ bounded_intersection left right left_distinct right_distinct }
{
    if disjoint(left, right) {
        return DistinctIntersection {
            distinct: 0.0,
            domains_disjoint: true,
        };
    }
    overlapping(overlap_distinct(left, right, left_distinct, right_distinct))
}

#[tactic(auto, unfolding(crate::specs::Intersection::zipped_intersection))]
fn zipped_intersection(
    left: Option<Interval<Scalar>>,
    right: Option<Interval<Scalar>>,
    left_distinct: f64,
    right_distinct: f64,
) -> DistinctIntersection
    ensures { result ≡ zipped_intersection left right left_distinct right_distinct }
{
    let (Some(x), Some(y)) = (left, right) else {
        return overlapping(f64_min(left_distinct, right_distinct));
    };
    bounded_intersection(x, y, left_distinct, right_distinct)
}

#[tactic(auto, unfolding(crate::specs::Intersection::estimated_distinct_intersection))]
pub fn estimated_distinct_intersection(
    left: ColumnProfile,
    right: ColumnProfile,
    left_distinct: f64,
    right_distinct: f64,
) -> DistinctIntersection
    ensures { result ≡ estimated_distinct_intersection left right left_distinct right_distinct }
{
    if left_distinct <= 0.0 || right_distinct <= 0.0 {
        return overlapping(0.0);
    }
    zipped_intersection(
        zip_bounds(left.lower, left.upper),
        zip_bounds(right.lower, right.upper),
        left_distinct,
        right_distinct,
    )
}
