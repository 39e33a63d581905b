// What the figures of an equality between a left and a right column are made from.
ghost use Rattle.std.specs.Prelude.{◌≡◌, Some};
ghost use Rattle.sheet.specs.Sheet.{viewed};
ghost use Rattle.lookup.specs.Lookup.{left_profile, right_profile};
ghost use Rattle.edge.specs.Inputs.{null_pair_selectivity, null_match_probability, edge_inputs};

use crate::EdgeInputs;
use crate::places::{PlacedEdge, placed_fraction};
use estimate::Estimate;
use estimate::bytes::estimate_at;
use float::order::f64_max;
use keys::effective_join_distinct;
use layout::{COUNT_SIZE, ESTIMATE_SIZE};
use range::selectivity::non_null_fraction;
use records::columns::ColumnProfile;
use sheet::View;

// The rows of a side as an estimate: the keys ask for its source. `lookup::profiles` has the value alone,
// which is read far more often.
#[tactic(auto, unfolding(sheet::specs::Sheet::sheet_of, sheet::specs::Order::record_at, sheet::specs::Order::record_end))]
fn left_rows_estimate(sheet: &View) -> Estimate
    ensures { result ≡ (viewed sheet.now).left_rows }
{
    estimate_at(sheet.bytes, usize::from(sheet.sections.rows) + COUNT_SIZE)
}

#[tactic(auto, unfolding(sheet::specs::Sheet::sheet_of, sheet::specs::Order::record_at, sheet::specs::Order::record_end))]
pub fn right_rows_estimate(sheet: &View) -> Estimate
    ensures { result ≡ (viewed sheet.now).right_rows }
{
    estimate_at(
        sheet.bytes,
        usize::from(sheet.sections.rows) + COUNT_SIZE + ESTIMATE_SIZE,
    )
}

#[tactic(auto, unfolding(crate::specs::Inputs::null_pair_selectivity))]
fn null_pair_selectivity(nulls: bool, left_non_null: f64, right_non_null: f64) -> f64
    ensures { result ≡ null_pair_selectivity nulls left_non_null right_non_null }
{
    if nulls {
        return (1.0 - left_non_null) * (1.0 - right_non_null);
    }
    0.0
}

#[tactic(auto, unfolding(crate::specs::Inputs::null_match_probability))]
fn null_match_probability(nulls: bool, left_non_null: f64) -> f64
    ensures { result ≡ null_match_probability nulls left_non_null }
{
    if nulls {
        return 1.0 - left_non_null;
    }
    0.0
}

// The profiles are those that the columns have in the two inputs.
#[tactic(auto, using(crate::proofs::OrientedLaws::fraction_left, crate::proofs::OrientedLaws::fraction_placed), unfolding(crate::specs::Inputs::edge_inputs))]
pub fn edge_inputs(placed: &PlacedEdge, left: ColumnProfile, right: ColumnProfile) -> EdgeInputs
    requires { (left_profile (viewed placed.now.sheet) placed.now.edge.left ≡ Some (left, (viewed placed.now.sheet).left_rows.value)) × (right_profile (viewed placed.now.sheet) placed.now.edge.right ≡ Some (right, (viewed placed.now.sheet).right_rows.value)) }
    ensures { result ≡ edge_inputs (viewed placed.now.sheet) placed.now.edge.left placed.now.edge.right left right placed.now.edge.null_safe placed.now.edge.left_ndv.value placed.now.edge.right_ndv.value }
{
    let sheet = &placed.sheet;
    let edge = &placed.edge;
    let left_rows = left_rows_estimate(sheet);
    let right_rows = right_rows_estimate(sheet);
    let left_distinct = f64_max(
        effective_join_distinct(sheet, left_rows, left),
        edge.left_ndv.value,
    );
    let right_distinct = f64_max(
        effective_join_distinct(sheet, right_rows, right),
        edge.right_ndv.value,
    );
    let left_non_null = non_null_fraction(left.frequency.value, left_rows.value);
    let right_non_null = placed_fraction(
        sheet.bytes,
        placed.places.right_in_left,
        left_rows.value,
        right.frequency.value,
        right_rows.value,
    );
    let left_has_null = left.frequency.value < left_rows.value;
    let right_has_null = right.frequency.value < right_rows.value;
    EdgeInputs {
        left_column: edge.left,
        null_safe: edge.null_safe,
        left_distinct,
        right_distinct,
        left_non_null,
        right_non_null,
        null_pair_selectivity: null_pair_selectivity(
            edge.null_safe && left_has_null && right_has_null,
            left_non_null,
            right_non_null,
        ),
        null_match_probability: null_match_probability(
            edge.null_safe && right_has_null,
            left_non_null,
        ),
    }
}
