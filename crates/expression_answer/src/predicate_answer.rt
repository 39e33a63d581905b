// The bytes of a predicate's answer.
ghost use Rattle.std.specs.Prelude.{◌≡◌};
ghost use Rattle.sheet.specs.Sheet.{viewed};
ghost use Rattle.answers.specs.Answers.{bytes, answer_of, answered, leaves};
ghost use Rattle.expression_answer.specs.Predicate.{predicate_bytes};

use answers::Answer;
use estimate::bytes::put_estimate;
use layout::ESTIMATE_SIZE;
use predicate::filter_selectivity_for_predicate;
use rules::Refusal;
use sheet::View;

// The answer's bytes, where the output has room for them.
#[tactic(auto, using(crate::proofs::PredicateLaws::predicate_length, crate::proofs::PredicateLaws::predicate_written), unfolding(answers::specs::Answers::answered, answers::specs::Answers::leaves))]
pub fn write_estimate(sheet: &View, e: u16, out: &mut [u8]) -> Answer
    ensures value { answer_of result ≡ answered (bytes (predicate_bytes (viewed sheet.now) e)) out.old }
    ensures out_after { out.new ≡ leaves (bytes (predicate_bytes (viewed sheet.now) e)) out.old }
{
    if ESTIMATE_SIZE <= out.len() {
        put_estimate(out, filter_selectivity_for_predicate(sheet, e));
        return Ok(ESTIMATE_SIZE);
    }
    Err(Refusal::Output)
}
