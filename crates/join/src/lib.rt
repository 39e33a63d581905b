// join_selectivity_from_conjuncts_with_config of the source's analysis.rs.
#![tactic(auto)]

ghost use Rattle.std.specs.Prelude.{◌≡◌, ◌≤◌, length};
ghost use Rattle.layout.specs.Places.{conjunct_limit, coverages_size};
ghost use Rattle.le.specs.Fields.{onto};
ghost use Rattle.sheet.specs.Sheet.{viewed};
ghost use Rattle.edge_fold.specs.Coverages.{coverages_bytes};
ghost use Rattle.join.specs.Join.{join_selectivity_from_conjuncts};
ghost use Rattle.join.specs.Joined.{joined};

use class_state::EquivalenceClassState;
use class_state::profiles::from_profiles;
use conjuncts::take_conjuncts;
use edge::places::InputPlaces;
use equality_pairs::non_null::non_null_marks;
use estimate::Estimate;
use figures::join_figures;
use fold::fold_edges;
use layout::COLUMN_LIMIT;
use lookup::profiles::right_rows;
use sheet::View;

mod conjuncts;
mod figures;
mod fold;
mod residual;

// The source's JoinSelectivityEstimate: the classes as a state, the non-null columns as marks, and of
// the coverages how many there are. The lists of the source are arrays here, since the library has no
// heap. The source fixes the fields, so the figures stand singly here.
#[derive(Clone, Copy)]
pub struct Joined {
    pub selectivity: Estimate,
    pub match_probability: Estimate,
    pub residual_selectivity: f64,
    pub classes: EquivalenceClassState,
    pub marks: [bool; COLUMN_LIMIT],
    pub coverages: usize,
}

// The edges' distincts are those of the classes that the profiles give. The room for coverages is a clause: an
// array's type would ask more of callers.
#[tactic(auto, using(crate::proofs::JoinLaws::taken_pairs, crate::proofs::JoinLaws::taken_residual, crate::proofs::JoinLaws::joined_is, crate::proofs::JoinLaws::covered_is))]
pub fn join_selectivity_from_conjuncts(
    sheet: &View,
    conjuncts: &[u16],
    coverages: &mut [u8],
) -> Joined
    requires { (length conjuncts.now ≤ conjunct_limit) × (coverages_size ≤ length coverages.old) }
    ensures value { result ≡ joined (viewed sheet.now) conjuncts.now }
    ensures coverages_after { coverages.new ≡ onto (coverages_bytes (join_selectivity_from_conjuncts (viewed sheet.now) conjuncts.now).left_equality_coverages) coverages.old }
{
    let taken = take_conjuncts(sheet, conjuncts);
    let pairs = taken.pairs.as_slice();
    let marks = non_null_marks(pairs);
    let inputs = InputPlaces::of_sheet(*sheet);
    let mut classes = from_profiles(sheet);
    let totals = fold_edges(&inputs, &marks, pairs, &mut classes, coverages);
    let residual_selectivity = taken.residual_selectivity;
    let figures = join_figures(totals.figures, right_rows(sheet), residual_selectivity);
    Joined {
        selectivity: figures.selectivity,
        match_probability: figures.match_probability,
        residual_selectivity,
        classes,
        marks,
        coverages: totals.coverages,
    }
}
