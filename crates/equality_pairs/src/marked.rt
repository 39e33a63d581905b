// The marked columns, ascending: how many there are, and written two bytes each.
ghost use Rattle.std.specs.Prelude.{◌≡◌, ◌*◌, ◌≤◌, length};
ghost use Rattle.layout.specs.Places.{number_size};
ghost use Rattle.le.specs.Fields.{onto};
ghost use Rattle.number_bytes.specs.Numbers.{numbers_bytes};
ghost use Rattle.equality_pairs.specs.NonNull.{is_marked, marked_columns};

use crate::non_null::is_marked;
use layout::COLUMN_LIMIT;
use selection::{Test, put_selected, selected_count};

#[derive(Clone, Copy)]
struct IsMarked<'a> {
    marks: &'a [bool],
}

impl Test for IsMarked<'_> {
    ghost test = { λ it. is_marked it.marks.now };

    fn passes(&self, n: u16) -> bool {
        is_marked(self.marks, n)
    }
}

// The marks, and how many columns they mark: counted once, for the length of an answer and for its bytes.
#[derive(Clone, Copy)]
pub struct Marked<'a> {
    pub marks: &'a [bool],
    pub count: usize,
    pub ghost counted: { count ≡ length (marked_columns marks.now) },
}

impl<'a> Marked<'a> {
    #[tactic(auto, unfolding(crate::specs::NonNull::marked_columns))]
    pub fn of(marks: &'a [bool]) -> Marked<'a>
        ensures { (result.marks.now ≡ marks.now) × (result.count ≡ length (marked_columns marks.now)) }
    {
        let count = selected_count(&IsMarked { marks }, COLUMN_LIMIT as u16);
        Marked { marks, count }
    }
}

// All of them.
#[tactic(auto, unfolding(crate::specs::NonNull::marked_columns))]
pub fn put_marked(marked: &Marked, out: &mut [u8]) -> usize
    requires { number_size * length (marked_columns marked.now.marks.now) ≤ length out.old }
    ensures value { result ≡ number_size * length (marked_columns marked.now.marks.now) }
    ensures out_after { out.new ≡ onto (numbers_bytes (marked_columns marked.now.marks.now)) out.old }
{
    let test = IsMarked {
        marks: marked.marks,
    };
    put_selected(&test, COLUMN_LIMIT as u16, marked.count, out)
}
