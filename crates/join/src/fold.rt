// The edges of a join, taken up one after the other.
ghost use Rattle.std.specs.Prelude.{◌≡◌, ◌≤◌, length};
ghost use Rattle.layout.specs.Places.{conjunct_limit, coverages_size};
ghost use Rattle.le.specs.Fields.{onto};
ghost use Rattle.sheet.specs.Sheet.{viewed};
ghost use Rattle.class_state.specs.State.{Rooted};
ghost use Rattle.edge_order.specs.Order.{edge_order};
ghost use Rattle.edge_fold.specs.Edges.{edge_key, edge_keys};
ghost use Rattle.edge_fold.specs.Fold.{no_equality, folded_edges};
ghost use Rattle.edge_fold.specs.Coverages.{coverages_bytes};
ghost use Rattle.join.specs.Totals.{equality_totals};

use class_state::EquivalenceClassState;
use class_state::slots::root_of;
use edge::EqualityEdge;
use edge::places::InputPlaces;
use edge_fold::edges::edge_of;
use edge_fold::fold::{EqualityFigures, add_edge};
use edge_order::{EdgeKey, NO_KEY, edge_order};
use equality_pairs::pairs::EqualityPair;
use layout::{CONJUNCT_LIMIT, COVERAGE_SIZE};

// The figures, and how many coverages were written. The coverages stand in the caller's memory, since the
// library has no heap.
#[derive(Clone, Copy)]
pub struct EqualityTotals {
    pub figures: EqualityFigures,
    pub coverages: usize,
}

// Before any edge.
const NO_EQUALITY: EqualityFigures = EqualityFigures {
    selectivity: 1.0,
    match_probability: 1.0,
    has_cross_input_equality: false,
};

// What an edge is ordered by.
fn edge_key(edge: EqualityEdge) -> EdgeKey
    ensures { result ≡ edge_key edge }
{
    EdgeKey {
        distinct: edge.chosen_ndv.value,
        null_safe: edge.null_safe,
    }
}

// The keys of the edges between the classes of a state.
#[tactic(auto, using(crate::proofs::JoinLaws::stored_all))]
fn put_edge_keys(
    classes: &EquivalenceClassState,
    marks: &[bool],
    pairs: &[EqualityPair],
    keys: &mut [EdgeKey],
)
    requires { Rooted classes.now.roots × (length keys.old ≡ length pairs.now) }
    ensures { keys.new ≡ edge_keys classes.now marks.now pairs.now }
{
    for (i, key) in keys.iter_mut().enumerate() {
        *key = edge_key(edge_of(classes, marks, pairs[i]));
    }
}

// The edges in this order, those of the classes before any union. A loop, since each turn changes what the
// next one reads. The room is a clause: an array's type would ask more of callers.
#[tactic(auto, using(edge_fold::proofs::EdgeLaws::order_length, edge_fold::proofs::EdgeLaws::order_placed, edge_fold::proofs::CountLaws::edge_coverage))]
fn fold_in_order(
    inputs: &InputPlaces,
    marks: &[bool],
    pairs: &[EqualityPair],
    order: &[u8],
    classes: &mut EquivalenceClassState,
    coverages: &mut [u8],
) -> EqualityTotals
    requires { (order.now ≡ edge_order (edge_keys classes.old marks.now pairs.now) (length pairs.now)) × (length pairs.now ≤ conjunct_limit) × Rooted classes.old.roots × (coverages_size ≤ length coverages.old) }
    ensures value { result ≡ equality_totals (folded_edges (viewed inputs.now.sheet) classes.old marks.now pairs.now) }
    ensures classes_after { classes.new ≡ (folded_edges (viewed inputs.now.sheet) classes.old marks.now pairs.now).classes }
    ensures coverages_after { coverages.new ≡ onto (coverages_bytes (folded_edges (viewed inputs.now.sheet) classes.old marks.now pairs.now).coverages) coverages.old }
{
    let before = *classes;
    let mut figures = NO_EQUALITY;
    let mut count: usize = 0;
    for i in order {
        let edge = edge_of(&before, marks, pairs[usize::from(*i)]);
        let same = root_of(&classes.roots, edge.left) == root_of(&classes.roots, edge.right);
        count += add_edge(
            &inputs.placed(edge),
            same,
            &mut figures,
            &mut coverages[COVERAGE_SIZE * count..],
        );
        classes.union(edge.left, edge.right, edge.chosen_ndv);
    }
    EqualityTotals {
        figures,
        coverages: count,
    }
}

// The edges of the pairs in their order. No struct holds classes, marks and pairs: the classes are lent to be read
// above and to be changed here. Keys and order stand by the pairs and not with them: both are made here and read
// once. The room is a clause, as above.
pub fn fold_edges(
    inputs: &InputPlaces,
    marks: &[bool],
    pairs: &[EqualityPair],
    classes: &mut EquivalenceClassState,
    coverages: &mut [u8],
) -> EqualityTotals
    requires { (length pairs.now ≤ conjunct_limit) × Rooted classes.old.roots × (coverages_size ≤ length coverages.old) }
    ensures value { result ≡ equality_totals (folded_edges (viewed inputs.now.sheet) classes.old marks.now pairs.now) }
    ensures classes_after { classes.new ≡ (folded_edges (viewed inputs.now.sheet) classes.old marks.now pairs.now).classes }
    ensures coverages_after { coverages.new ≡ onto (coverages_bytes (folded_edges (viewed inputs.now.sheet) classes.old marks.now pairs.now).coverages) coverages.old }
{
    let n = pairs.len();
    let mut keys = [NO_KEY; CONJUNCT_LIMIT];
    let mut order = [0u8; CONJUNCT_LIMIT];
    put_edge_keys(classes, marks, pairs, &mut keys[..n]);
    edge_order(&keys[..n], &mut order[..n]);
    fold_in_order(inputs, marks, pairs, &order[..n], classes, coverages)
}
