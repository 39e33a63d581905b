// Whether what a command claims is so.
ghost use Rattle.std.specs.Prelude.{◌≡◌};
ghost use Rattle.sheet_cases.specs.Claims.{answer_holds, judge_answer, judge};

use crate::entries::{is_join, is_predicate, is_split};
use le::reads::{u16_at, u32_at};
use sheet_claims::commands::{
    EXPRESSION_OFFSET, Kind, LENGTH_OFFSET, PLACE_OFFSET, SIZE_OFFSET, kind_of,
};
use sheet_claims::{
    Line, Verdict, is_accepted, judge_prefixes, judge_refused, judge_store, one_case, unknown,
};

// Whether what is expected comes out. Joins and accepted sheets name no expression. By the line, and not
// by a closure that is lent: each call would have to say what its closure computes.
fn answer_holds(line: Line, s: &[u8], e: u16, expected: &[u8]) -> bool
    ensures { result ≡ answer_holds line s.now e expected.now }
{
    match line {
        Line::Accepted => is_accepted(s, expected),
        Line::Predicates => is_predicate(s, e, expected),
        Line::Splits => is_split(s, e, expected),
        _ => is_join(s, expected),
    }
}

// The command's sheet, and what is to come out, have to lie within their buffers.
#[tactic(auto, unfolding(crate::specs::Claims::judge_answer, crate::specs::Claims::answer_fits))]
fn judge_answer(line: Line, s: &[u8], a: &[u8], c: &[u8]) -> Verdict
    ensures { result ≡ judge_answer line s.now a.now c.now }
{
    let n = u32_at(c, LENGTH_OFFSET) as usize;
    let at = u32_at(c, PLACE_OFFSET) as usize;
    let size = u32_at(c, SIZE_OFFSET) as usize;
    let (Some(sheet), Some(expected)) = (s.get(..n), a.get(at..at + size)) else {
        return unknown();
    };
    let e = u16_at(c, EXPRESSION_OFFSET);
    one_case(line, answer_holds(line, sheet, e, expected))
}

// The verdict on a command c, where s is the sheet's buffer and a the answer's.
#[tactic(auto, unfolding(crate::specs::Claims::judge))]
pub fn judge(s: &[u8], a: &[u8], c: &[u8]) -> Verdict
    ensures { result ≡ judge s.now a.now c.now }
{
    let Some(kind) = kind_of(c) else {
        return unknown();
    };
    match kind {
        Kind::Store => judge_store(s, c),
        Kind::Refused => judge_refused(s, c),
        Kind::Accepted => judge_answer(Line::Accepted, s, a, c),
        Kind::Prefixes => judge_prefixes(s, c),
        Kind::StoreAnswer => judge_store(a, c),
        Kind::Join => judge_answer(Line::Joins, s, a, c),
        Kind::Predicate => judge_answer(Line::Predicates, s, a, c),
        Kind::Split => judge_answer(Line::Splits, s, a, c),
    }
}
