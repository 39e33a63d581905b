// Questions about one expression: the refusals that stand before an answer, in their order.
#![tactic(auto)]

ghost use Rattle.std.specs.Prelude.{ℕ, List, ◌≡◌};
ghost use Rattle.sheet.specs.Sheet.{Sheet, viewed};
ghost use Rattle.answers.specs.Answers.{bytes, answer_of, answered, leaves, named_result, expression_result};
ghost use Rattle.expression_answer.specs.Predicate.{predicate_bytes};
ghost use Rattle.expression_answer.specs.Split.{split_bytes};

use answers::Answer;
use asked::Asked;
use lookup::numbers::expression_count;
use predicate_answer::write_estimate;
use rules::Refusal;
use sheet::View;
use split_answer::write_conjuncts;

pub mod asked;
mod predicate_answer;
mod split_answer;

// A question about an expression.
pub trait Question {
    // What it is answered with.
    ghost answer_bytes: { Sheet → ℕ → List ℕ };

    // Of an expression that the sheet has.
    fn write_answer(asked: &Asked, out: &mut [u8]) -> Answer
        ensures value { answer_of result ≡ answered (bytes (answer_bytes (viewed asked.now.sheet) asked.now.e)) out.old }
        ensures out_after { out.new ≡ leaves (bytes (answer_bytes (viewed asked.now.sheet) asked.now.e)) out.old };
}

// Its estimate as a predicate.
pub struct Predicate;

impl Question for Predicate {
    ghost answer_bytes = { predicate_bytes };

    fn write_answer(asked: &Asked, out: &mut [u8]) -> Answer {
        write_estimate(&asked.sheet, asked.e, out)
    }
}

// Its conjuncts.
pub struct Split;

impl Question for Split {
    ghost answer_bytes = { split_bytes };

    fn write_answer(asked: &Asked, out: &mut [u8]) -> Answer {
        write_conjuncts(asked, out)
    }
}

// The expression may have a number that the sheet does not have.
#[tactic(auto, using(answers::proofs::AnswerLaws::named_in, answers::proofs::AnswerLaws::named_out), unfolding(answers::specs::Answers::answered, answers::specs::Answers::leaves))]
fn write_named<Q: Question>(asked: &Asked, out: &mut [u8]) -> Answer
    ensures value { answer_of result ≡ answered (named_result (viewed asked.now.sheet) asked.now.e (Q.answer_bytes (viewed asked.now.sheet) asked.now.e)) out.old }
    ensures out_after { out.new ≡ leaves (named_result (viewed asked.now.sheet) asked.now.e (Q.answer_bytes (viewed asked.now.sheet) asked.now.e)) out.old }
{
    if asked.e < expression_count(&asked.sheet) {
        return Q::write_answer(asked, out);
    }
    Err(Refusal::Expression)
}

#[tactic(auto, using(answers::proofs::AnswerLaws::refused_result, answers::proofs::AnswerLaws::accepted_result, crate::proofs::SplitLaws::split_most), unfolding(answers::specs::Answers::answered, answers::specs::Answers::leaves))]
pub fn answer_expression<Q: Question>(s: &[u8], e: u16, out: &mut [u8]) -> Answer
    ensures value { answer_of result ≡ answered (expression_result s.now e Q.answer_bytes) out.old }
    ensures out_after { out.new ≡ leaves (expression_result s.now e Q.answer_bytes) out.old }
{
    let sections = sheet::check(s)?;
    let sheet = View { bytes: s, sections };
    write_named::<Q>(&Asked { sheet, e }, out)
}
