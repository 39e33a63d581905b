// The conjuncts of a join: the pairs of columns that they equate, and what the others come to.
ghost use Rattle.std.specs.Prelude.{◌≡◌, ◌≤◌, length};
ghost use Rattle.layout.specs.Places.{conjunct_limit};
ghost use Rattle.sheet.specs.Sheet.{viewed};
ghost use Rattle.join.specs.Conjuncts.{take_conjuncts};

use equality_pairs::pairs::{EqualityPairs, equality_pair};
use predicate::filter_selectivity_for_predicate;
use sheet::View;

// The pairs, and the product over the conjuncts that equate no columns.
#[derive(Clone, Copy)]
pub struct Conjuncts {
    pub pairs: EqualityPairs,
    pub residual_selectivity: f64,
}

// One walk over the conjuncts, which shares each into the pairs or the product: a loop, since it makes two
// things at once.
#[tactic(auto, using(equality_pairs::proofs::PairLaws::pairs_all, crate::proofs::ResidualLaws::residual_end), unfolding(crate::specs::Conjuncts::take_conjuncts))]
pub fn take_conjuncts(sheet: &View, conjuncts: &[u16]) -> Conjuncts
    requires { length conjuncts.now ≤ conjunct_limit }
    ensures { result ≡ take_conjuncts (viewed sheet.now) conjuncts.now }
{
    let mut pairs = EqualityPairs::new();
    let mut product = 1.0;
    for e in conjuncts {
        match equality_pair(sheet, *e) {
            Some(pair) => pairs.push(pair),
            None => product *= filter_selectivity_for_predicate(sheet, *e).value,
        }
    }
    Conjuncts {
        pairs,
        residual_selectivity: product,
    }
}
