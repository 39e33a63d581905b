// How many records of a list are of a kind, and how many of them differ.
#![tactic(auto, unfolding(crate::specs::Tallies::tally_of))]

ghost use Rattle.std.specs.Prelude.{◌≡◌, count_by};
ghost use Rattle.float_vectors.specs.Tallies.{is_of, differs_in, tally_of};

use crate::kinds::Kind;
use crate::verdicts::{Case, RECORD_SIZE, Record};
use std::fmt;

#[derive(Clone, Copy)]
pub struct Tally {
    cases: usize,
    differ: usize,
}

impl fmt::Display for Tally {
    fn fmt<W: fmt::Write>(&self, f: &mut fmt::Formatter<W>) -> fmt::Result {
        let Tally { cases, differ } = *self;
        write!(f, "{cases} cases, {differ} differ")
    }
}

fn is_of(bytes: &Record, kind: Option<Kind>) -> bool
    ensures { result ≡ is_of kind bytes.now }
{
    Case::from(bytes).kind == kind
}

// Cases of other kinds are not computed.
fn differs_in(bytes: &Record, kind: Option<Kind>) -> bool
    ensures { result ≡ differs_in kind bytes.now }
{
    let case = Case::from(bytes);
    case.kind == kind && !case.agrees()
}

fn cases_in(records: &[Record], kind: Option<Kind>) -> usize
    ensures { result ≡ count_by (is_of kind) records.now }
{
    records.iter().filter(|bytes| is_of(*bytes, kind)).count()
}

fn differing_in(records: &[Record], kind: Option<Kind>) -> usize
    ensures { result ≡ count_by (differs_in kind) records.now }
{
    records
        .iter()
        .filter(|bytes| differs_in(*bytes, kind))
        .count()
}

// The records of a kind, or of none that is known, among the whole records of s.
pub fn tally_of(s: &[u8], kind: Option<Kind>) -> Tally
    ensures { result ≡ tally_of s.now kind }
{
    let (records, _) = s.as_chunks::<RECORD_SIZE>();
    Tally {
        cases: cases_in(records, kind),
        differ: differing_in(records, kind),
    }
}
