// The answers for planners, from a sheet's bytes into an output that the caller lends.
#![tactic(auto)]

ghost use Rattle.std.specs.Prelude.{◌≡◌};
ghost use Rattle.answers.specs.Answers.{answer_of, answered, leaves, Comes, answer_number};
ghost use Rattle.expression_answer.specs.Predicate.{predicate_result};
ghost use Rattle.expression_answer.specs.Split.{split_result};
ghost use Rattle.join_answer.specs.Join.{join_result};

use answers::{Answer, answer_number};
use expression_answer::{Predicate, Split, answer_expression};
use join_answer::answer_join;

// The estimate of an expression as a predicate: 26 bytes.
#[tactic(auto, unfolding(expression_answer::specs::Predicate::predicate_result))]
pub fn predicate(sheet: &[u8], expression: u16, out: &mut [u8]) -> Answer
    ensures { Comes (predicate_result sheet.now expression) out.old (answer_of result) out.new }
{
    answer_expression::<Predicate>(sheet, expression, out)
}

// The conjuncts of an expression: how many, and their numbers.
#[tactic(auto, unfolding(expression_answer::specs::Split::split_result))]
pub fn split(sheet: &[u8], expression: u16, out: &mut [u8]) -> Answer
    ensures { Comes (split_result sheet.now expression) out.old (answer_of result) out.new }
{
    answer_expression::<Split>(sheet, expression, out)
}

// The join's figures, classes, coverages and non-null columns.
pub fn join(sheet: &[u8], out: &mut [u8]) -> Answer
    ensures { Comes (join_result sheet.now) out.old (answer_of result) out.new }
{
    answer_join(sheet, out)
}

// The answers as one number, a length or 2^32 plus the refusal's number. The crate estimates_c exports these to
// other languages: a slice passes as a pointer and a length, and `out` must share no byte with the sheet. C has no
// generics: there is one function for each entry. They stand here too: no crate can stand on a static library, and
// `demand` calls these.
#[unsafe(no_mangle)]
pub extern "C" fn estimates_predicate(sheet: &[u8], expression: u16, out: &mut [u8]) -> u64
    ensures value { result ≡ answer_number (answered (predicate_result sheet.now expression) out.old) }
    ensures out_after { out.new ≡ leaves (predicate_result sheet.now expression) out.old }
{
    answer_number(predicate(sheet, expression, out))
}

// As `estimates_predicate`, for `split`.
#[unsafe(no_mangle)]
pub extern "C" fn estimates_split(sheet: &[u8], expression: u16, out: &mut [u8]) -> u64
    ensures value { result ≡ answer_number (answered (split_result sheet.now expression) out.old) }
    ensures out_after { out.new ≡ leaves (split_result sheet.now expression) out.old }
{
    answer_number(split(sheet, expression, out))
}

// As `estimates_predicate`, for `join`.
#[unsafe(no_mangle)]
pub extern "C" fn estimates_join(sheet: &[u8], out: &mut [u8]) -> u64
    ensures value { result ≡ answer_number (answered (join_result sheet.now) out.old) }
    ensures out_after { out.new ≡ leaves (join_result sheet.now) out.old }
{
    answer_number(join(sheet, out))
}
