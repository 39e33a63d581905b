// What the edges of a join come to.
ghost use Rattle.std.specs.Prelude.{◌≡◌, ◌≤◌, length};
ghost use Rattle.le.specs.Fields.{onto};
ghost use Rattle.sheet.specs.Sheet.{viewed};
ghost use Rattle.layout.specs.Places.{coverage_size};
ghost use Rattle.edge_fold.specs.Fold.{zeroed, multiplied, with_estimate, coverage_unless, edge_figures, edge_coverages};
ghost use Rattle.edge_fold.specs.Coverages.{coverages_bytes};

use crate::coverages::put_coverage;
use crate::sides::connects_places;
use edge::places::PlacedEdge;
use edge::{EqualityEdgeEstimate, equality_edge_estimate};

// The products over the edges so far, and whether one of them joined the two inputs. The source fixes the flag,
// and it is compared with its.
#[derive(Clone, Copy)]
pub struct EqualityFigures {
    pub selectivity: f64,
    pub match_probability: f64,
    pub has_cross_input_equality: bool,
}

#[tactic(auto, unfolding(crate::specs::Fold::zeroed))]
fn zeroed(disjoint: bool, figures: EqualityFigures) -> EqualityFigures
    ensures { result ≡ zeroed disjoint figures }
{
    if disjoint {
        return EqualityFigures {
            selectivity: 0.0,
            match_probability: 0.0,
            ..figures
        };
    }
    figures
}

#[tactic(auto, unfolding(crate::specs::Fold::multiplied))]
fn multiplied(figures: EqualityFigures, estimate: EqualityEdgeEstimate) -> EqualityFigures
    ensures { result ≡ multiplied figures estimate }
{
    EqualityFigures {
        selectivity: figures.selectivity * estimate.pair_selectivity,
        match_probability: figures.match_probability * estimate.left_match_probability,
        has_cross_input_equality: true,
    }
}

#[tactic(auto, unfolding(crate::specs::Fold::with_estimate))]
fn with_estimate(
    figures: EqualityFigures,
    estimate: EqualityEdgeEstimate,
    same: bool,
) -> EqualityFigures
    ensures { result ≡ with_estimate figures estimate same }
{
    let before = zeroed(estimate.domains_disjoint, figures);
    if same {
        return before;
    }
    multiplied(before, estimate)
}

// How many coverages were put, none or one. The room is a clause: an array's type would ask more of callers.
#[tactic(auto, using(crate::proofs::CoverageLaws::none_put, crate::proofs::CoverageLaws::one_put))]
fn put_unless(same: bool, estimate: EqualityEdgeEstimate, out: &mut [u8]) -> usize
    requires { coverage_size ≤ length out.old }
    ensures value { result ≡ length (coverage_unless same estimate) }
    ensures out_after { out.new ≡ onto (coverages_bytes (coverage_unless same estimate)) out.old }
{
    if same {
        return 0;
    }
    match estimate.left_coverage {
        None => 0,
        Some(c) => {
            put_coverage(out, c);
            1
        }
    }
}

// One edge's part in the figures and the coverages, and how many coverages it put. An edge whose columns
// stand in the same inputs has none. The room is a clause, as above.
#[tactic(auto, using(crate::proofs::SideLaws::connects_is, crate::proofs::CoverageLaws::none_put), unfolding(crate::specs::Fold::edge_figures, crate::specs::Fold::edge_coverages))]
pub fn add_edge(
    placed: &PlacedEdge,
    same: bool,
    figures: &mut EqualityFigures,
    out: &mut [u8],
) -> usize
    requires { coverage_size ≤ length out.old }
    ensures value { result ≡ length (edge_coverages (viewed placed.now.sheet) placed.now.edge same) }
    ensures figures_after { figures.new ≡ edge_figures (viewed placed.now.sheet) figures.old placed.now.edge same }
    ensures out_after { out.new ≡ onto (coverages_bytes (edge_coverages (viewed placed.now.sheet) placed.now.edge same)) out.old }
{
    if !connects_places(placed.places) {
        return 0;
    }
    let estimate = equality_edge_estimate(placed);
    *figures = with_estimate(*figures, estimate, same);
    put_unless(same, estimate, out)
}
