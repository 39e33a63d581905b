// The numbers that pass a test, ascending.
#![tactic(auto)]

ghost use Rattle.std.specs.Prelude.{◌≡◌, ℕ, Bool, ◌*◌, ◌≤◌, length};
ghost use Rattle.le.specs.Fields.{onto};
ghost use Rattle.layout.specs.Places.{number_size};
ghost use Rattle.number_bytes.specs.Numbers.{numbers_bytes};
ghost use Rattle.selection.specs.Selected.{selected};

use layout::NUMBER_SIZE;
use number_bytes::put_number;

// A test of numbers. A trait and not a closure: the contracts name what it computes, which each caller would have
// to say of its closure.
pub trait Test {
    ghost test: { Self → ℕ → Bool };

    fn passes(&self, n: u16) -> bool
        ensures { result ≡ test self.now n };
}

// How many of the numbers below the limit pass.
pub fn selected_count<T: Test>(passing: &T, limit: u16) -> usize
    ensures { result ≡ length (selected (T.test passing.now) 0 limit) }
{
    (0..limit).filter(|&n| passing.passes(n)).count()
}

// Those below the limit, two bytes each, where it is known how many there are.
pub fn put_selected<T: Test>(passing: &T, limit: u16, count: usize, out: &mut [u8]) -> usize
    requires { (count ≡ length (selected (T.test passing.now) 0 limit)) × (number_size * length (selected (T.test passing.now) 0 limit) ≤ length out.old) }
    ensures value { result ≡ number_size * length (selected (T.test passing.now) 0 limit) }
    ensures out_after { out.new ≡ onto (numbers_bytes (selected (T.test passing.now) 0 limit)) out.old }
{
    let size = NUMBER_SIZE * count;
    let mut at: usize = 0;
    // Not a loop over the filter: the proof of one in generic code did not close.
    for n in 0..limit {
        if at == size {
            break;
        }
        if passing.passes(n) {
            at += put_number(&mut out[at..], n);
        }
    }
    at
}
