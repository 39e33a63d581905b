// The columns that have one root: how many they are, and the columns themselves.
ghost use Rattle.std.specs.Prelude.{◌≡◌, ◌+◌, ◌*◌, ◌≤◌, ◌<◌, length, get_or, set};
ghost use Rattle.le.specs.Fields.{onto};
ghost use Rattle.number_bytes.specs.Numbers.{numbers_bytes};
ghost use Rattle.records.specs.Lists.{tabulate};
ghost use Rattle.layout.specs.Places.{column_limit, number_size};
ghost use Rattle.class_state.specs.State.{has_root, members};
ghost use Rattle.class_state.specs.Sizes.{member_count};

use crate::slots::root_of;
use layout::COLUMN_LIMIT;
use selection::{Test, put_selected};

// One more at a root. Past the end nothing is counted. By its place: what is written through `get_mut` is
// lost to the proof.
fn raise(counts: &mut [u8], root: u8)
    requires { get_or counts.old root 0 < 255 }
    ensures { counts.new ≡ set counts.old root (get_or counts.old root 0 + 1) }
{
    let i = usize::from(root);
    if i < counts.len() {
        counts[i] += 1;
    }
}

// How many columns each root has. By columns and not by roots: a column past the end counts at root 0.
pub fn member_counts(roots: &[u8]) -> [u8; COLUMN_LIMIT]
    ensures { result ≡ tabulate (member_count roots.now) column_limit }
{
    let mut counts = [0u8; COLUMN_LIMIT];
    for column in 0..COLUMN_LIMIT as u16 {
        raise(&mut counts, root_of(roots, column));
    }
    counts
}

// The columns at one root. How many they are comes along: it is counted once, for the length of an
// answer and for its bytes.
#[derive(Clone, Copy)]
pub struct Members<'a> {
    pub roots: &'a [u8],
    pub root: u8,
    pub count: u8,
    pub ghost counted: { count ≡ member_count roots.now root },
}

impl Test for Members<'_> {
    ghost test = { λ it. has_root it.roots.now it.root };

    fn passes(&self, n: u16) -> bool {
        root_of(self.roots, n) == self.root
    }
}

// All of them.
#[tactic(auto, unfolding(crate::specs::State::members))]
pub fn put_members(class: &Members, out: &mut [u8]) -> usize
    requires { number_size * member_count class.now.roots.now class.now.root ≤ length out.old }
    ensures value { result ≡ number_size * member_count class.now.roots.now class.now.root }
    ensures out_after { out.new ≡ onto (numbers_bytes (members class.now.roots.now class.now.root)) out.old }
{
    put_selected(class, COLUMN_LIMIT as u16, usize::from(class.count), out)
}
