// The answer of a join.
#![tactic(auto)]

ghost use Rattle.std.specs.Prelude.{◌≡◌, ◌≤◌, length};
ghost use Rattle.sheet.specs.Sheet.{conjuncts_of, viewed};
ghost use Rattle.layout.specs.Places.{conjunct_limit};
ghost use Rattle.join.specs.Join.{join_selectivity_from_conjuncts};
ghost use Rattle.answers.specs.Answers.{bytes, answer_of, answered, leaves};
ghost use Rattle.join_answer.specs.Join.{join_bytes, join_result};

use answers::Answer;
use class_state::members::member_counts;
use class_state::returned::{counts_size, put_classes, returned_count};
use equality_pairs::marked::Marked;
use join::join_selectivity_from_conjuncts;
use join_parts::conjuncts::put_conjunct_numbers;
use join_parts::{Figures, put_behind_classes, put_figures_part};
use layout::{
    CONJUNCT_LIMIT, COVERAGE_SIZE, COVERAGES_SIZE, FIRST_CLASS_OFFSET, JOIN_CLASSES_OFFSET,
    JOIN_FIXED_SIZE, NUMBER_SIZE,
};
use le::writes::put_u16;
use rules::Refusal;
use sheet::View;

// Of any conjuncts, as many as a join may have: the answer's bytes, where the output has room for them. Their
// limit stands as a clause: a type of its own would hold the slice and nothing else.
pub fn write_join(sheet: &View, conjuncts: &[u16], out: &mut [u8]) -> Answer
    requires { length conjuncts.now ≤ conjunct_limit }
    ensures value { answer_of result ≡ answered (bytes (join_bytes (join_selectivity_from_conjuncts (viewed sheet.now) conjuncts.now))) out.old }
    ensures out_after { out.new ≡ leaves (bytes (join_bytes (join_selectivity_from_conjuncts (viewed sheet.now) conjuncts.now))) out.old }
{
    let mut coverages = [0u8; COVERAGES_SIZE];
    let joined = join_selectivity_from_conjuncts(sheet, conjuncts, &mut coverages);
    let counts = member_counts(&joined.classes.roots);
    let marked = Marked::of(&joined.marks);
    let classes = counts_size(&counts);
    let covered = COVERAGE_SIZE * joined.coverages;
    let size = JOIN_FIXED_SIZE + classes + covered + NUMBER_SIZE * marked.count;
    if out.len() < size {
        return Err(Refusal::Output);
    }
    let figures = Figures {
        selectivity: joined.selectivity,
        match_probability: joined.match_probability,
        residual_selectivity: joined.residual_selectivity,
    };
    put_figures_part(figures, out);
    put_u16(
        &mut out[JOIN_CLASSES_OFFSET..],
        returned_count(&counts) as u16,
    );
    put_classes(
        &joined.classes,
        &counts,
        classes,
        &mut out[FIRST_CLASS_OFFSET..],
    );
    let end = FIRST_CLASS_OFFSET + classes;
    put_behind_classes(&coverages[..covered], &marked, &mut out[end..]);
    Ok(size)
}

// Of the sheet's own. They are copied into an array with a count, since the library has no heap.
#[tactic(auto, using(join_parts::proofs::CopyLaws::copied_taken, join_parts::proofs::CopyLaws::copied_count, answers::proofs::AnswerLaws::comes_as))]
fn write_own(sheet: &View, out: &mut [u8]) -> Answer
    requires { length (conjuncts_of sheet.now.bytes.now sheet.now.sections) ≤ conjunct_limit }
    ensures value { answer_of result ≡ answered (bytes (join_bytes (join_selectivity_from_conjuncts (viewed sheet.now) (conjuncts_of sheet.now.bytes.now sheet.now.sections)))) out.old }
    ensures out_after { out.new ≡ leaves (bytes (join_bytes (join_selectivity_from_conjuncts (viewed sheet.now) (conjuncts_of sheet.now.bytes.now sheet.now.sections)))) out.old }
{
    let mut numbers = [0u16; CONJUNCT_LIMIT];
    let n = put_conjunct_numbers(sheet, &mut numbers);
    write_join(sheet, &numbers[..n], out)
}

// The sheet's refusals come first.
pub fn answer_join(s: &[u8], out: &mut [u8]) -> Answer
    ensures value { answer_of result ≡ answered (join_result s.now) out.old }
    ensures out_after { out.new ≡ leaves (join_result s.now) out.old }
{
    let sections = sheet::check(s)?;
    write_own(&View { bytes: s, sections }, out)
}
