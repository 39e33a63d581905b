// Whether an entry gives the answer that the list has for it.
ghost use Rattle.std.specs.Prelude.{◌≡◌, length};
ghost use Rattle.sheet_cases.specs.Entries.{same_bytes, is_answer, is_predicate, is_split, is_join};
ghost use Rattle.answers.specs.Answers.{answer_of};

use answers::Answer;
use layout::{LONGEST_JOIN, LONGEST_PREDICATE, LONGEST_SPLIT};
use le::reads::byte_at;

// No `==` of slices: past the end of the output a byte is 0.
fn same_bytes(out: &[u8], expected: &[u8]) -> bool
    ensures { result ≡ same_bytes out.now expected.now (length expected.now) }
{
    (0..expected.len()).all(|i| byte_at(out, i) == byte_at(expected, i))
}

// The call answered this and left this in the output.
fn is_answer(answer: Answer, out: &[u8], expected: &[u8]) -> bool
    ensures { result ≡ is_answer (answer_of answer) out.now expected.now }
{
    answer == Ok(expected.len()) && same_bytes(out, expected)
}

// These three call entries of their own, each into an output of its own length: one function for them
// would be longer.
#[tactic(auto, unfolding(crate::specs::Entries::is_predicate))]
pub fn is_predicate(s: &[u8], e: u16, expected: &[u8]) -> bool
    ensures { result ≡ is_predicate s.now e expected.now }
{
    let mut out = [0u8; LONGEST_PREDICATE];
    let answer = estimates::predicate(s, e, &mut out);
    is_answer(answer, &out, expected)
}

#[tactic(auto, unfolding(crate::specs::Entries::is_split))]
pub fn is_split(s: &[u8], e: u16, expected: &[u8]) -> bool
    ensures { result ≡ is_split s.now e expected.now }
{
    let mut out = [0u8; LONGEST_SPLIT];
    let answer = estimates::split(s, e, &mut out);
    is_answer(answer, &out, expected)
}

#[tactic(auto, unfolding(crate::specs::Entries::is_join))]
pub fn is_join(s: &[u8], expected: &[u8]) -> bool
    ensures { result ≡ is_join s.now expected.now }
{
    let mut out = [0u8; LONGEST_JOIN];
    let answer = estimates::join(s, &mut out);
    is_answer(answer, &out, expected)
}
