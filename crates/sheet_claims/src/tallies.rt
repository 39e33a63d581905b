// Counting on the lines of the report.
ghost use Rattle.std.specs.Prelude.{◌≡◌};
ghost use Rattle.sheet_claims.specs.Tallies.{place, tally_of, raised};

use crate::{Line, Verdict};
use std::fmt;

// The cases of a line, and how many of them differ. Not the tally of float_vectors: that one counts items of
// a list, this one stays at the largest number.
#[derive(Clone, Copy, Default)]
pub struct Tally {
    pub cases: u64,
    pub differ: u64,
}

impl fmt::Display for Tally {
    fn fmt<W: fmt::Write>(&self, f: &mut fmt::Formatter<W>) -> fmt::Result {
        let Tally { cases, differ } = *self;
        write!(f, "{cases} cases, {differ} differ")
    }
}

// Where a line's tally stands: the refusals by their numbers. An array by place: a map would need room and could
// fail.
fn place(line: Line) -> usize
    ensures { result ≡ place line }
{
    match line {
        Line::Unknown => 0,
        Line::Refused(refusal) => usize::from(u8::from(refusal)),
        Line::Accepted => 11,
        Line::Prefixes => 12,
        Line::Stores => 13,
        Line::Joins => 14,
        Line::Predicates => 15,
        Line::Splits => 16,
    }
}

// A line that is not there has no cases.
pub fn tally_of(tallies: &[Tally], line: Line) -> Tally
    ensures { result ≡ tally_of tallies.now line }
{
    tallies.get(place(line)).copied().unwrap_or_default()
}

#[tactic(auto, unfolding(crate::specs::Tallies::raised))]
pub fn raise(tallies: &mut [Tally], v: Verdict)
    ensures { tallies.new ≡ raised tallies.old v }
{
    // No get_mut: its contract does not say what the slice holds afterwards.
    let i = place(v.line);
    if let Some(&tally) = tallies.get(i) {
        tallies[i] = Tally {
            cases: tally.cases.saturating_add(v.cases),
            differ: tally.differ.saturating_add(v.differ),
        };
    }
}
