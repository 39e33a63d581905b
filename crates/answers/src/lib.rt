// What an entry answers.
#![tactic(auto)]

ghost use Rattle.std.specs.Prelude.{◌≡◌};
ghost use Rattle.answers.specs.Answers.{answer_of, answer_number};

use rules::Refusal;

// How many bytes were written, or why the call is refused.
pub type Answer = Result<usize, Refusal>;

// The length, or 2^32 plus the refusal's number. No `From`, since a `Result` is the library's type.
pub fn answer_number(answer: Answer) -> u64
    ensures { result ≡ answer_number (answer_of answer) }
{
    match answer {
        Ok(n) => n as u64,
        Err(refusal) => 0x1_0000_0000 + u64::from(u8::from(refusal)),
    }
}
