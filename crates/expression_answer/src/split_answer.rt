// The bytes of a split's answer.
ghost use Rattle.std.specs.Prelude.{◌≡◌, ◌*◌, ◌≤◌, length};
ghost use Rattle.le.specs.Fields.{onto};
ghost use Rattle.sheet.specs.Sheet.{viewed};
ghost use Rattle.number_bytes.specs.Numbers.{numbers_bytes};
ghost use Rattle.layout.specs.Places.{number_size};
ghost use Rattle.answers.specs.Answers.{bytes, answer_of, answered, leaves};
ghost use Rattle.expression_answer.specs.Split.{split_bytes};

use crate::asked::Asked;
use answers::Answer;
use layout::{COUNT_SIZE, NUMBER_SIZE, OPERAND_LIMIT};
use le::writes::put_u16;
use number_bytes::put_number;
use rules::Refusal;
use split::put_conjuncts;

// Numbers one behind the other, and how many bytes they take.
#[tactic(auto, using(crate::proofs::SplitLaws::written_first, crate::proofs::SplitLaws::written_length, crate::proofs::SplitLaws::written_next, crate::proofs::SplitLaws::written_all))]
fn put_numbers(numbers: &[u16], out: &mut [u8]) -> usize
    requires { number_size * length numbers.now ≤ length out.old }
    ensures value { result ≡ number_size * length numbers.now }
    ensures out_after { out.new ≡ onto (numbers_bytes numbers.now) out.old }
{
    let mut at: usize = 0;
    for n in numbers {
        at += put_number(&mut out[at..], *n);
    }
    at
}

// The answer's bytes, where the output has room for them. An array of all that may be, and beside it how many
// are: no heap.
#[tactic(auto, using(crate::proofs::SplitLaws::split_length, crate::proofs::SplitLaws::split_taken, crate::proofs::SplitLaws::split_count, crate::proofs::SplitLaws::split_written), unfolding(answers::specs::Answers::answered, answers::specs::Answers::leaves))]
pub fn write_conjuncts(asked: &Asked, out: &mut [u8]) -> Answer
    ensures value { answer_of result ≡ answered (bytes (split_bytes (viewed asked.now.sheet) asked.now.e)) out.old }
    ensures out_after { out.new ≡ leaves (bytes (split_bytes (viewed asked.now.sheet) asked.now.e)) out.old }
{
    let mut numbers = [0u16; OPERAND_LIMIT];
    let n = put_conjuncts(&asked.sheet, asked.e, &mut numbers);
    if COUNT_SIZE + NUMBER_SIZE * n <= out.len() {
        put_u16(out, n as u16);
        return Ok(COUNT_SIZE + put_numbers(&numbers[..n], &mut out[COUNT_SIZE..]));
    }
    Err(Refusal::Output)
}
