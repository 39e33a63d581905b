// The state before any equality: every column alone, then the classes of both profiles.
ghost use Rattle.std.specs.Prelude.{◌≡◌, ◌<◌, ◌^◌};
ghost use Rattle.records.specs.Classes.{class_at};
ghost use Rattle.sheet.specs.Sheet.{records_in, viewed};
ghost use Rattle.sheet.specs.declared.order.Kind.TheVariants.{Classes};
ghost use Rattle.class_state.specs.State.{with_columns, with_classes, from_profiles, Rooted};

use crate::EquivalenceClassState;
use crate::apart::apart;
use crate::slots::root_of;
use estimate::bytes::estimate_at;
use layout::{CLASS_DISTINCT_OFFSET, CLASS_HEAD_SIZE, COUNT_SIZE, NUMBER_SIZE};
use le::reads::u16_at;
use sheet::View;

// The class at a place: its distinct overwrites the one at its first column's root, and the other
// columns are united with the first. Each turn changes the state where it stands: folded, its 4 kB
// would be copied at every turn.
#[tactic(auto, using(crate::proofs::ClassLaws::united_next, crate::proofs::ClassLaws::united_all, crate::proofs::ClassLaws::class_few, crate::proofs::ClassLaws::class_many, crate::proofs::ProfileLaws::union_keeps))]
fn with_columns(s: &[u8], at: usize, state: &mut EquivalenceClassState)
    requires { (at < 2 ^ 60) × Rooted state.old.roots }
    ensures { state.new ≡ with_columns state.old (class_at s.now at).columns (class_at s.now at).distinct }
{
    let n = u16_at(s, at) as usize;
    if n < 2 {
        return;
    }
    let distinct = estimate_at(s, at + CLASS_DISTINCT_OFFSET);
    let first = u16_at(s, at + CLASS_HEAD_SIZE);
    let own = root_of(&state.roots, first);
    state.distincts[own as usize] = distinct;
    for i in 1..n {
        let column = u16_at(s, at + CLASS_HEAD_SIZE + NUMBER_SIZE * i);
        state.union(first, column, distinct);
    }
}

// The classes of a section: each stands behind the one before it, and changes the state.
#[tactic(auto, using(crate::proofs::ClassLaws::class_next, crate::proofs::ClassLaws::classes_first, crate::proofs::ClassLaws::classes_next, crate::proofs::ClassLaws::classes_all, crate::proofs::ProfileLaws::rooted_next), unfolding(sheet::specs::Order::record_at))]
fn with_classes(s: &[u8], section: u16, state: &mut EquivalenceClassState)
    requires { Rooted state.old.roots }
    ensures { state.new ≡ with_classes state.old (records_in Classes class_at s.now section) }
{
    let start = section as usize;
    let mut at = start + COUNT_SIZE;
    'classes: for _ in 0..u16_at(s, start) {
        with_columns(s, at, state);
        at += CLASS_HEAD_SIZE + NUMBER_SIZE * u16_at(s, at) as usize;
    }
}

#[tactic(auto, using(crate::proofs::ProfileLaws::profiles_are, crate::proofs::ProfileLaws::rooted_first, crate::proofs::ProfileLaws::rooted_classes))]
pub fn from_profiles(sheet: &View) -> EquivalenceClassState
    ensures { result ≡ from_profiles (viewed sheet.now) }
{
    let mut state = apart(sheet);
    with_classes(sheet.bytes, sheet.sections.left_classes, &mut state);
    with_classes(sheet.bytes, sheet.sections.right_classes, &mut state);
    state
}
