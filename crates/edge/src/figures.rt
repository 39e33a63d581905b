// The figures of an equality, case by case.
ghost use Rattle.std.specs.Prelude.{◌≡◌};
ghost use Rattle.edge.specs.Figures.{coverage, disjoint_estimate, per_row, foreign_key_estimate, equal_non_null, uniform_pair_selectivity, uniform_non_null_match_probability, at_least_uniform, overlap_estimate};

use crate::{EdgeInputs, EqualityEdgeEstimate, LeftEqualityCoverage};
use float::order::{clamp_unit, f64_max};

// What an equality leaves of its left column.
fn coverage(
    x: EdgeInputs,
    intersection: f64,
    non_null_match: f64,
    null_match: f64,
    ordinary: bool,
) -> LeftEqualityCoverage
    ensures { result ≡ coverage x intersection non_null_match null_match ordinary }
{
    LeftEqualityCoverage {
        column: x.left_column,
        input_distinct: x.left_distinct,
        input_non_null_fraction: x.left_non_null,
        intersection_distinct: intersection,
        non_null_match_probability: non_null_match,
        null_match_probability: null_match,
        ordinary_non_null: ordinary,
    }
}

// Domains that share no value.
#[tactic(auto, unfolding(crate::specs::Figures::disjoint_estimate))]
pub fn disjoint_estimate(x: EdgeInputs) -> EqualityEdgeEstimate
    ensures { result ≡ disjoint_estimate x }
{
    let nulls_can_match = 0.0 < x.null_pair_selectivity;
    EqualityEdgeEstimate {
        pair_selectivity: x.null_pair_selectivity,
        left_match_probability: x.null_match_probability,
        left_coverage: Some(coverage(x, 0.0, 0.0, x.null_match_probability, !x.null_safe)),
        domains_disjoint: !nulls_can_match,
    }
}

fn per_row(fraction: f64, rows: f64) -> f64
    ensures { result ≡ per_row fraction rows }
{
    if rows <= 0.0 {
        return 0.0;
    }
    fraction / rows
}

// A foreign key into a whole table.
#[tactic(auto, unfolding(crate::specs::Figures::foreign_key_estimate))]
pub fn foreign_key_estimate(x: EdgeInputs, right_rows: f64) -> EqualityEdgeEstimate
    ensures { result ≡ foreign_key_estimate x right_rows }
{
    EqualityEdgeEstimate {
        pair_selectivity: per_row(x.left_non_null, right_rows),
        left_match_probability: x.left_non_null,
        left_coverage: Some(coverage(x, x.left_distinct, x.left_non_null, 0.0, true)),
        domains_disjoint: false,
    }
}

#[tactic(auto, unfolding(crate::specs::Figures::equal_non_null))]
fn equal_non_null(x: EdgeInputs, intersection: f64) -> f64
    ensures { result ≡ equal_non_null x intersection }
{
    if x.left_distinct <= 0.0 || x.right_distinct <= 0.0 {
        return 0.0;
    }
    x.left_non_null * x.right_non_null * intersection / (x.left_distinct * x.right_distinct)
}

#[tactic(auto, unfolding(crate::specs::Figures::uniform_pair_selectivity))]
fn uniform_pair_selectivity(x: EdgeInputs, intersection: f64) -> f64
    ensures { result ≡ uniform_pair_selectivity x intersection }
{
    let equal = equal_non_null(x, intersection);
    if x.null_safe {
        return equal + x.null_pair_selectivity;
    }
    equal
}

#[tactic(auto, unfolding(crate::specs::Figures::uniform_non_null_match_probability))]
fn uniform_non_null_match_probability(x: EdgeInputs, intersection: f64) -> f64
    ensures { result ≡ uniform_non_null_match_probability x intersection }
{
    if x.left_distinct <= 0.0 {
        return 0.0;
    }
    x.left_non_null * intersection / x.left_distinct
}

fn at_least_uniform(option: Option<f64>, uniform: f64) -> f64
    ensures { result ≡ at_least_uniform option uniform }
{
    match option {
        Some(figure) => f64_max(figure, uniform),
        None => uniform,
    }
}

// Every other equality, with what sketches tell of the pair and of the match.
#[tactic(auto, unfolding(crate::specs::Figures::overlap_estimate))]
pub fn overlap_estimate(
    x: EdgeInputs,
    intersection: f64,
    sketch_pair: Option<f64>,
    sketch_match: Option<f64>,
) -> EqualityEdgeEstimate
    ensures { result ≡ overlap_estimate x intersection sketch_pair sketch_match }
{
    let pair = sketch_pair.unwrap_or(uniform_pair_selectivity(x, intersection));
    let uniform_match = uniform_non_null_match_probability(x, intersection);
    let non_null_match = at_least_uniform(sketch_match, uniform_match);
    EqualityEdgeEstimate {
        pair_selectivity: clamp_unit(pair),
        left_match_probability: clamp_unit(non_null_match + x.null_match_probability),
        left_coverage: Some(coverage(
            x,
            intersection,
            non_null_match,
            x.null_match_probability,
            !x.null_safe,
        )),
        domains_disjoint: false,
    }
}
