// The edges of a join.
ghost use Rattle.std.specs.Prelude.{◌≡◌};
ghost use Rattle.class_state.specs.State.{Rooted};
ghost use Rattle.edge_fold.specs.Edges.{equality_edge, edge_null_safe, edge_of};

use class_state::EquivalenceClassState;
use class_state::slots::root_of;
use edge::EqualityEdge;
use equality_pairs::non_null::is_marked;
use equality_pairs::pairs::EqualityPair;
use estimate::Estimate;

// Where the left column is known to be non-null the edge is ordinary.
fn edge_null_safe(marks: &[bool], pair: EqualityPair) -> bool
    ensures { result ≡ edge_null_safe marks.now pair }
{
    pair.null_safe && !is_marked(marks, pair.left)
}

// The edge of a pair whose classes have these distincts.
#[tactic(auto, unfolding(crate::specs::Edges::equality_edge))]
pub fn equality_edge(
    marks: &[bool],
    pair: EqualityPair,
    left_ndv: Estimate,
    right_ndv: Estimate,
) -> EqualityEdge
    ensures { result ≡ equality_edge marks.now pair left_ndv right_ndv }
{
    EqualityEdge {
        left: pair.left,
        right: pair.right,
        null_safe: edge_null_safe(marks, pair),
        chosen_ndv: left_ndv.max_by_value(right_ndv),
        left_ndv,
        right_ndv,
    }
}

// The edge of a pair between classes of a state.
#[tactic(auto, using(crate::proofs::EdgeLaws::edge_made))]
pub fn edge_of(classes: &EquivalenceClassState, marks: &[bool], pair: EqualityPair) -> EqualityEdge
    requires { Rooted classes.now.roots }
    ensures { result ≡ edge_of classes.now marks.now pair }
{
    let left = usize::from(root_of(&classes.roots, pair.left));
    let right = usize::from(root_of(&classes.roots, pair.right));
    equality_edge(
        marks,
        pair,
        classes.distincts[left],
        classes.distincts[right],
    )
}
