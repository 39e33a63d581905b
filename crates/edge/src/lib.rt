// equality_edge_estimate of the source's analysis.rs: what one equality between columns of a join's
// two inputs comes to.
#![tactic(auto)]

ghost use Rattle.std.specs.Prelude.{◌≡◌, Some};
ghost use Rattle.records.specs.Columns.{column_profile_at};
ghost use Rattle.sheet.specs.Sheet.{viewed};
ghost use Rattle.sketch_join.specs.SketchJoin.{sketch_join_estimate, sketch_left_match_probability};
ghost use Rattle.edge.specs.Places.{exchanged_places};
ghost use Rattle.edge.specs.Edge.{unoriented_estimate, references_whole, bases_referenced, is_reference, unless_null_safe, estimate_by_sketches, estimate_by_inputs, oriented_estimate, equality_edge_estimate, exchanged_edge};

use estimate::Estimate;
use figures::{disjoint_estimate, foreign_key_estimate, overlap_estimate};
use float::order::{clamp_unit, f64_max};
use inputs::{edge_inputs, right_rows_estimate};
use interval::intersection::{DistinctIntersection, estimated_distinct_intersection};
use keys::{profile_has_complete_base_population, single_column_foreign_key};
use lookup::profiles::{left_rows, right_rows};
use places::{PlacedEdge, exchanged_places, placed_distinct};
use records::columns::{BaseColumn, ColumnProfile, column_profile_at};
use sheet::View;
use sketch_join::{sketch_join_estimate, sketch_left_match_probability};

mod figures;
mod inputs;
pub mod places;

// The source's EqualityEdge. The source fixes the fields, and they are compared with its.
#[derive(Clone, Copy)]
pub struct EqualityEdge {
    pub left: u16,
    pub right: u16,
    pub null_safe: bool,
    pub chosen_ndv: Estimate,
    pub left_ndv: Estimate,
    pub right_ndv: Estimate,
}

// What the figures of an equality are made from. The source fixes `null_safe`, and it is compared with its.
#[derive(Clone, Copy)]
pub struct EdgeInputs {
    pub left_column: u16,
    pub null_safe: bool,
    pub left_distinct: f64,
    pub right_distinct: f64,
    pub left_non_null: f64,
    pub right_non_null: f64,
    pub null_pair_selectivity: f64,
    pub null_match_probability: f64,
}

// The source fixes the fields, and they are compared with its.
#[derive(Clone, Copy)]
pub struct LeftEqualityCoverage {
    pub column: u16,
    pub input_distinct: f64,
    pub input_non_null_fraction: f64,
    pub intersection_distinct: f64,
    pub non_null_match_probability: f64,
    pub null_match_probability: f64,
    pub ordinary_non_null: bool,
}

// The source fixes the fields, and they are compared with its.
#[derive(Clone, Copy)]
pub struct EqualityEdgeEstimate {
    pub pair_selectivity: f64,
    pub left_match_probability: f64,
    pub left_coverage: Option<LeftEqualityCoverage>,
    pub domains_disjoint: bool,
}

// Columns of which the inputs have no pair, by their distincts.
#[tactic(auto, unfolding(crate::specs::Edge::unoriented_estimate))]
fn unoriented_estimate(sheet: &View, first: f64, second: f64) -> EqualityEdgeEstimate
    ensures { result ≡ unoriented_estimate (viewed sheet.now) first second }
{
    let pair_selectivity = 1.0 / f64_max(f64_max(first, second), 1.0);
    EqualityEdgeEstimate {
        pair_selectivity,
        left_match_probability: clamp_unit(right_rows(sheet) * pair_selectivity),
        left_coverage: None,
        domains_disjoint: false,
    }
}

// Whether a column references another one of a table that the right side has the whole of.
fn references_whole(sheet: &View, column: BaseColumn, referenced: BaseColumn) -> bool
    ensures { result ≡ references_whole (viewed sheet.now) column referenced }
{
    single_column_foreign_key(sheet, column, referenced)
        && profile_has_complete_base_population(sheet, right_rows_estimate(sheet), referenced.table)
}

fn bases_referenced(sheet: &View, left: Option<BaseColumn>, right: Option<BaseColumn>) -> bool
    ensures { result ≡ bases_referenced (viewed sheet.now) left right }
{
    match (left, right) {
        (Some(column), Some(referenced)) => references_whole(sheet, column, referenced),
        _ => false,
    }
}

#[tactic(auto, unfolding(crate::specs::Edge::is_reference))]
fn is_reference(
    sheet: &View,
    null_safe: bool,
    left: Option<BaseColumn>,
    right: Option<BaseColumn>,
) -> bool
    ensures { result ≡ is_reference (viewed sheet.now) null_safe left right }
{
    !null_safe && 0.0 < right_rows(sheet) && bases_referenced(sheet, left, right)
}

// What sketches tell of a pair of rows. Of a null-safe equality they are not asked. The two profiles go side by
// side here and below: a struct of them would be taken apart wherever they are read.
#[tactic(auto, unfolding(sheet::specs::Sheet::sheet_of))]
fn sketch_pair(
    sheet: &View,
    null_safe: bool,
    left: ColumnProfile,
    right: ColumnProfile,
) -> Option<f64>
    ensures { result ≡ unless_null_safe null_safe (sketch_join_estimate (viewed sheet.now).sketches left (viewed sheet.now).left_rows.value right (viewed sheet.now).right_rows.value) }
{
    if null_safe {
        return None;
    }
    sketch_join_estimate(
        sheet.bytes,
        sheet.sections.sketches,
        left,
        left_rows(sheet),
        right,
        right_rows(sheet),
    )
}

// As `sketch_pair`, for the part of the left rows that find a partner.
#[tactic(auto, unfolding(sheet::specs::Sheet::sheet_of))]
fn sketch_match(
    sheet: &View,
    null_safe: bool,
    left: ColumnProfile,
    right: ColumnProfile,
    intersection: f64,
    left_distinct: f64,
) -> Option<f64>
    ensures { result ≡ unless_null_safe null_safe (sketch_left_match_probability (viewed sheet.now).sketches left (viewed sheet.now).left_rows.value right intersection left_distinct) }
{
    if null_safe {
        return None;
    }
    sketch_left_match_probability(
        sheet.bytes,
        sheet.sections.sketches,
        left,
        left_rows(sheet),
        right,
        intersection,
        left_distinct,
    )
}

#[tactic(auto, unfolding(crate::specs::Edge::estimate_by_sketches))]
fn estimate_by_sketches(
    sheet: &View,
    x: EdgeInputs,
    left: ColumnProfile,
    right: ColumnProfile,
    intersection: f64,
) -> EqualityEdgeEstimate
    ensures { result ≡ estimate_by_sketches (viewed sheet.now) x left right intersection }
{
    let pair = sketch_pair(sheet, x.null_safe, left, right);
    let matched = sketch_match(
        sheet,
        x.null_safe,
        left,
        right,
        intersection,
        x.left_distinct,
    );
    overlap_estimate(x, intersection, pair, matched)
}

// Disjoint domains before foreign keys, and those before the rest.
#[tactic(auto, unfolding(crate::specs::Edge::estimate_by_inputs))]
fn estimate_by_inputs(
    sheet: &View,
    x: EdgeInputs,
    left: ColumnProfile,
    right: ColumnProfile,
    intersection: DistinctIntersection,
) -> EqualityEdgeEstimate
    ensures { result ≡ estimate_by_inputs (viewed sheet.now) x left right intersection }
{
    if intersection.domains_disjoint {
        return disjoint_estimate(x);
    }
    if is_reference(sheet, x.null_safe, left.base, right.base) {
        return foreign_key_estimate(x, right_rows(sheet));
    }
    estimate_by_sketches(sheet, x, left, right, intersection.distinct)
}

// An edge whose left column stands in the left input and whose right one in the right, at these places.
#[tactic(auto, unfolding(crate::specs::Edge::oriented_estimate))]
fn oriented_estimate(placed: &PlacedEdge, left_at: u32, right_at: u32) -> EqualityEdgeEstimate
    requires { (placed.now.places.left_in_left ≡ Some left_at) × (placed.now.places.right_in_right ≡ Some right_at) }
    ensures { result ≡ oriented_estimate (viewed placed.now.sheet) placed.now.edge.left placed.now.edge.right (column_profile_at placed.now.sheet.bytes.now left_at) (column_profile_at placed.now.sheet.bytes.now right_at) placed.now.edge.null_safe placed.now.edge.left_ndv.value placed.now.edge.right_ndv.value }
{
    let sheet = &placed.sheet;
    let left = column_profile_at(sheet.bytes, left_at as usize);
    let right = column_profile_at(sheet.bytes, right_at as usize);
    let x = edge_inputs(placed, left, right);
    let intersection = estimated_distinct_intersection(
        left,
        right,
        x.left_distinct,
        x.right_distinct,
    );
    estimate_by_inputs(sheet, x, left, right, intersection)
}

fn exchanged_edge(edge: EqualityEdge) -> EqualityEdge
    ensures { result ≡ exchanged_edge edge }
{
    EqualityEdge {
        left: edge.right,
        right: edge.left,
        left_ndv: edge.right_ndv,
        right_ndv: edge.left_ndv,
        ..edge
    }
}

fn exchanged<'a>(placed: &PlacedEdge<'a>) -> PlacedEdge<'a>
    ensures same_sheet { result.sheet ≡ placed.now.sheet }
    ensures edge { result.edge ≡ exchanged_edge placed.now.edge }
    ensures places { result.places ≡ exchanged_places placed.now.places }
{
    PlacedEdge {
        sheet: placed.sheet,
        edge: exchanged_edge(placed.edge),
        places: exchanged_places(placed.places),
    }
}

// The columns as they stand, or else exchanged. The distincts of their classes change places with them.
#[tactic(auto, using(crate::proofs::OrientedLaws::oriented_straight, crate::proofs::OrientedLaws::oriented_exchanged, crate::proofs::OrientedLaws::exchanged_apart, crate::proofs::EdgeLaws::estimate_straight, crate::proofs::EdgeLaws::estimate_exchanged))]
pub fn equality_edge_estimate(placed: &PlacedEdge) -> EqualityEdgeEstimate
    ensures { result ≡ equality_edge_estimate (viewed placed.now.sheet) placed.now.edge }
{
    let places = placed.places;
    if let Some((left, right)) = places.left_in_left.zip(places.right_in_right) {
        return oriented_estimate(placed, left, right);
    }
    if let Some((left, right)) = places.right_in_left.zip(places.left_in_right) {
        return oriented_estimate(&exchanged(placed), left, right);
    }
    let s = placed.sheet.bytes;
    let first = placed_distinct(s, places.left_in_left, places.left_in_right);
    let second = placed_distinct(s, places.right_in_left, places.right_in_right);
    unoriented_estimate(&placed.sheet, first, second)
}
