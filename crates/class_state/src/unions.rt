// Two classes made one.
ghost use Rattle.std.specs.Prelude.{◌≡◌, map};
ghost use Rattle.class_state.specs.State.{moved, united, union, Rooted};

use crate::EquivalenceClassState;
use crate::slots::root_of;
use estimate::Estimate;

fn moved(from: u8, to: u8, root: u8) -> u8
    ensures { result ≡ moved from to root }
{
    if root == from { to } else { root }
}

#[tactic(auto, using(crate::proofs::MappedLaws::mapped_none, crate::proofs::MappedLaws::mapped_next, crate::proofs::MappedLaws::mapped_all))]
fn move_each(roots: &mut [u8], from: u8, to: u8)
    ensures { roots.new ≡ map (moved from to) roots.old }
{
    for root in roots.iter_mut() {
        *root = moved(from, to, *root);
    }
}

// Columns at the root `from` get the root `to`.
pub fn move_roots(roots: &mut [u8], from: u8, to: u8)
    ensures { roots.new ≡ map (moved from to) roots.old }
{
    if from == to {
        return;
    }
    move_each(roots, from, to);
}

// The distinct at the root that stays: the least of the three, or the left one as it is where both columns
// are in one class already.
pub fn united(same: bool, left: Estimate, right: Estimate, distinct: Estimate) -> Estimate
    ensures { result ≡ united same left right distinct }
{
    if same {
        return left;
    }
    left.min_by_value(right).min_by_value(distinct)
}

impl EquivalenceClassState {
    // The right column's class goes under the left one's root.
    #[tactic(auto, using(crate::proofs::UnionLaws::union_step, crate::proofs::UnionLaws::root_below))]
    pub fn union(&mut self, left: u16, right: u16, distinct: Estimate)
        requires { Rooted self.old.roots }
        ensures { self.new ≡ union self.old left right distinct }
    {
        let to = root_of(&self.roots, left);
        let from = root_of(&self.roots, right);
        self.distincts[to as usize] = united(
            to == from,
            self.distincts[to as usize],
            self.distincts[from as usize],
            distinct,
        );
        move_roots(&mut self.roots, from, to);
    }
}
