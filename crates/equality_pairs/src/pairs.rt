// The pairs of columns that conjuncts equate.
ghost use Rattle.std.specs.Prelude.{◌≡◌, ◌<◌, [], ◌∷◌, ◌++◌, length};
ghost use Rattle.layout.specs.Places.{conjunct_limit};
ghost use Rattle.sheet.specs.Sheet.{viewed};
ghost use Rattle.equality_pairs.specs.Pairs.{null_safe_in, equality_pair};

use layout::CONJUNCT_LIMIT;
use lookup::numbers::expression_of;
use parts::equalities::{column_equality, is_null_safe};
use records::expressions::Expression;
use sheet::View;
use std::marker::Model;

// The source's EqualityPair. The source fixes the fields, and they are compared with its.
#[derive(Clone, Copy)]
pub struct EqualityPair {
    pub left: u16,
    pub right: u16,
    pub null_safe: bool,
}

const NO_PAIR: EqualityPair = EqualityPair {
    left: 0,
    right: 0,
    null_safe: false,
};

// As many pairs as a join may have conjuncts, or fewer. A fixed array and a count, since the library
// has no heap. Behind the last pair stands `NO_PAIR`: so a list says what the array holds, and can be copied.
#[derive(Clone, Copy)]
pub struct EqualityPairs {
    pairs: [EqualityPair; CONJUNCT_LIMIT],
    count: usize,
}

// Clauses see the pairs, in their order.
impl Model for EqualityPairs {
    ghost use Rattle.std.specs.Prelude.{◌≡◌, ◌≤◌, List, take, length};
    ghost use mathlib.Core.Path.{sym};
    ghost use Rattle.layout.specs.Places.{conjunct_limit};
    ghost use Rattle.equality_pairs.specs.declared.pairs.EqualityPair.{EqualityPair};
    ghost use Rattle.equality_pairs.specs.Padded.{padded};

    ghost Value = { List EqualityPair };

    ghost view = { λ p. take p.count p.pairs };

    ghost invariant = { λ p. (p.count ≤ conjunct_limit) × (p.count ≡ length (take p.count p.pairs)) × (p.pairs ≡ padded (take p.count p.pairs)) };

    ghost inverse = { λ l. record { pairs = padded l; count = length l } };

    ghost inverse_ok = { λ a h. λ k. record { pairs = sym h.2 k; count = sym h.1 k } };
}

impl EqualityPairs {
    pub fn new() -> EqualityPairs
        ensures { result ≡ [] }
    {
        EqualityPairs {
            pairs: [NO_PAIR; CONJUNCT_LIMIT],
            count: 0,
        }
    }

    pub fn push(&mut self, pair: EqualityPair)
        requires { length self.old < conjunct_limit }
        ensures { self.new ≡ self.old ++ pair ∷ [] }
    {
        self.pairs[self.count] = pair;
        self.count += 1;
    }

    pub fn as_slice(&self) -> &[EqualityPair]
        ensures { result.now ≡ self.now }
    {
        &self.pairs[..self.count]
    }
}

fn null_safe_in(x: Expression) -> bool
    ensures { result ≡ null_safe_in x }
{
    match x {
        Expression::Binary { op, .. } => is_null_safe(op),
        _ => false,
    }
}

// The pair of the conjunct e, if it equates columns. The columns are copied, since the fields are the source's.
#[tactic(auto, unfolding(crate::specs::Pairs::equality_pair))]
pub fn equality_pair(sheet: &View, e: u16) -> Option<EqualityPair>
    ensures { result ≡ equality_pair (viewed sheet.now) e }
{
    let columns = column_equality(sheet, e)?;
    Some(EqualityPair {
        left: columns.left,
        right: columns.right,
        null_safe: null_safe_in(expression_of(sheet, e)),
    })
}
