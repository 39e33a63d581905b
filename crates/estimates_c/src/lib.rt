// The entries of `estimates` for programs in other languages. A slice passes as a pointer and a length,
// and `out` must share no byte with the sheet. C has no generics: there is one function for each entry.
// They stand in `estimates` too: no crate can stand on this static library, and `demand` calls those.
#![tactic(auto)]

ghost use Rattle.std.specs.Prelude.{◌≡◌};
ghost use Rattle.answers.specs.Answers.{answered, leaves, answer_number};
ghost use Rattle.expression_answer.specs.Predicate.{predicate_result};
ghost use Rattle.expression_answer.specs.Split.{split_result};
ghost use Rattle.join_answer.specs.Join.{join_result};

// The estimate of an expression as a predicate: 26 bytes.
#[unsafe(no_mangle)]
pub extern "C" fn estimates_predicate(sheet: &[u8], expression: u16, out: &mut [u8]) -> u64
    ensures value { result ≡ answer_number (answered (predicate_result sheet.now expression) out.old) }
    ensures out_after { out.new ≡ leaves (predicate_result sheet.now expression) out.old }
{
    estimates::estimates_predicate(sheet, expression, out)
}

// The conjuncts of an expression: how many, and their numbers.
#[unsafe(no_mangle)]
pub extern "C" fn estimates_split(sheet: &[u8], expression: u16, out: &mut [u8]) -> u64
    ensures value { result ≡ answer_number (answered (split_result sheet.now expression) out.old) }
    ensures out_after { out.new ≡ leaves (split_result sheet.now expression) out.old }
{
    estimates::estimates_split(sheet, expression, out)
}

// The join's figures, classes, coverages and non-null columns.
#[unsafe(no_mangle)]
pub extern "C" fn estimates_join(sheet: &[u8], out: &mut [u8]) -> u64
    ensures value { result ≡ answer_number (answered (join_result sheet.now) out.old) }
    ensures out_after { out.new ≡ leaves (join_result sheet.now) out.old }
{
    estimates::estimates_join(sheet, out)
}
