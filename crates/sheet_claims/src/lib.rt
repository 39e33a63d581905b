// What a command of a list of sheets claims of a sheet alone, and whether that is so.
#![tactic(auto)]

ghost use Rattle.std.specs.Prelude.{◌≡◌, length};
ghost use Rattle.sheet_claims.specs.Claims.{is_refused, places_of, same_places, is_accepted, differing_below, unknown, one_case, judge_store, refusal_of, judge_refused, judge_prefixes};

use commands::{LENGTH_OFFSET, NUMBER_OFFSET};
use layout::NUMBER_SIZE;
use le::reads::{byte_at, u16_at, u32_at};
use rules::Refusal;
use sheet::Sections;
use sheet::order::SECTION_COUNT;
use std::fmt;
use stores::store_fits;

pub mod commands;
pub mod stores;
pub mod tallies;

// The line of the report that counts a command: unknown commands, sheets that are refused, accepted
// ones, and the other kinds of cases.
#[derive(Clone, Copy)]
pub enum Line {
    Unknown,
    Refused(Refusal),
    Accepted,
    Prefixes,
    Stores,
    Joins,
    Predicates,
    Splits,
}

pub const LINE_COUNT: usize = 17;

// The lines in the order of the report.
pub const LINES: [Line; LINE_COUNT] = [
    Line::Refused(Refusal::Length),
    Line::Refused(Refusal::Truncated),
    Line::Refused(Refusal::Count),
    Line::Refused(Refusal::Figure),
    Line::Refused(Refusal::Scalar),
    Line::Refused(Refusal::Code),
    Line::Refused(Refusal::Order),
    Line::Refused(Refusal::Reference),
    Line::Refused(Refusal::OperandRun),
    Line::Refused(Refusal::Trailing),
    Line::Accepted,
    Line::Prefixes,
    Line::Stores,
    Line::Joins,
    Line::Predicates,
    Line::Splits,
    Line::Unknown,
];

impl fmt::Display for Line {
    fn fmt<W: fmt::Write>(&self, f: &mut fmt::Formatter<W>) -> fmt::Result {
        match *self {
            Line::Unknown => f.write_str("unknown"),
            Line::Refused(refusal) => write!(f, "refused by {}", u8::from(refusal)),
            Line::Accepted => f.write_str("accepted"),
            Line::Prefixes => f.write_str("prefixes"),
            Line::Stores => f.write_str("stores"),
            Line::Joins => f.write_str("joins"),
            Line::Predicates => f.write_str("predicates"),
            Line::Splits => f.write_str("splits"),
        }
    }
}

// A command's line, its cases, and how many of them differ.
#[derive(Clone, Copy)]
pub struct Verdict {
    pub line: Line,
    pub cases: u64,
    pub differ: u64,
}

// By the number, here and in `differing_below`: a command of prefixes may hold one that is no refusal's.
#[tactic(auto, unfolding(crate::specs::Claims::is_refused))]
fn is_refused(s: &[u8], number: u8) -> bool
    ensures { result ≡ is_refused s.now number }
{
    sheet::check(s).is_err_and(|refusal| u8::from(refusal) == number)
}

// No `From` in `sheet`, whose type it is: only a list's claims need the places as an array.
#[tactic(auto, unfolding(crate::specs::Claims::places_of))]
fn places_of(q: Sections) -> [u16; SECTION_COUNT]
    ensures { result ≡ places_of q }
{
    [
        q.rows,
        q.settings,
        q.sketches,
        q.tables,
        q.keys,
        q.left_columns,
        q.right_columns,
        q.left_classes,
        q.right_classes,
        q.expressions,
        q.operands,
        q.conjuncts,
    ]
}

// Whether the bytes hold these places.
fn same_places(places: [u16; SECTION_COUNT], expected: &[u8]) -> bool
    ensures { result ≡ same_places places expected.now 0 }
{
    places
        .iter()
        .enumerate()
        .all(|(i, &place)| place == u16_at(expected, NUMBER_SIZE * i))
}

// Whether the sheet is accepted, with its sections where the list expects them.
#[tactic(auto, unfolding(crate::specs::Claims::is_accepted))]
pub fn is_accepted(s: &[u8], expected: &[u8]) -> bool
    ensures { result ≡ is_accepted s.now expected.now }
{
    sheet::check(s).is_ok_and(|q| {
        expected.len() == NUMBER_SIZE * SECTION_COUNT && same_places(places_of(q), expected)
    })
}

// How many of the prefixes that are shorter than the sheet are not refused with the number.
fn differing_below(s: &[u8], number: u8) -> u64
    ensures { result ≡ differing_below s.now number (length s.now) }
{
    (0..s.len())
        .filter(|&i| !is_refused(&s[..i], number))
        .count() as u64
}

#[tactic(auto, unfolding(crate::specs::Claims::unknown))]
pub fn unknown() -> Verdict
    ensures { result ≡ unknown }
{
    Verdict {
        line: Line::Unknown,
        cases: 1,
        differ: 1,
    }
}

#[tactic(auto, unfolding(crate::specs::Claims::one_case))]
pub fn one_case(line: Line, agrees: bool) -> Verdict
    ensures { result ≡ one_case line agrees }
{
    Verdict {
        line,
        cases: 1,
        differ: u64::from(!agrees),
    }
}

#[tactic(auto, unfolding(crate::specs::Claims::judge_store))]
pub fn judge_store(s: &[u8], c: &[u8]) -> Verdict
    ensures { result ≡ judge_store s.now c.now }
{
    if store_fits(s, c) {
        one_case(Line::Stores, true)
    } else {
        unknown()
    }
}

// The refusals of a sheet by their numbers. No `TryFrom` in `rules`: only ten of the twelve numbers are a
// sheet's.
fn refusal_of(number: u8) -> Option<Refusal>
    ensures { result ≡ refusal_of number }
{
    match number {
        1 => Some(Refusal::Length),
        2 => Some(Refusal::Truncated),
        3 => Some(Refusal::Count),
        4 => Some(Refusal::Figure),
        5 => Some(Refusal::Scalar),
        6 => Some(Refusal::Code),
        7 => Some(Refusal::Order),
        8 => Some(Refusal::Reference),
        9 => Some(Refusal::OperandRun),
        10 => Some(Refusal::Trailing),
        _ => None,
    }
}

#[tactic(auto, unfolding(crate::specs::Claims::judge_refused))]
pub fn judge_refused(s: &[u8], c: &[u8]) -> Verdict
    ensures { result ≡ judge_refused s.now c.now }
{
    let n = u32_at(c, LENGTH_OFFSET) as usize;
    let (Some(sheet), Some(refusal)) = (s.get(..n), refusal_of(byte_at(c, NUMBER_OFFSET))) else {
        return unknown();
    };
    one_case(Line::Refused(refusal), is_refused(sheet, u8::from(refusal)))
}

#[tactic(auto, using(crate::proofs::PrefixLaws::differing_prefix), unfolding(crate::specs::Claims::judge_prefixes))]
pub fn judge_prefixes(s: &[u8], c: &[u8]) -> Verdict
    ensures { result ≡ judge_prefixes s.now c.now }
{
    let n = u32_at(c, LENGTH_OFFSET);
    let Some(sheet) = s.get(..n as usize) else {
        return unknown();
    };
    Verdict {
        line: Line::Prefixes,
        cases: u64::from(n),
        differ: differing_below(sheet, byte_at(c, NUMBER_OFFSET)),
    }
}
