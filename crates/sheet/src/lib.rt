// A join sheet: whether its bytes keep every rule, and where its sections stand.
#![tactic(auto)]

ghost use Rattle.std.specs.Prelude.{◌≡◌};
ghost use Rattle.sheet.specs.Check.{checked_of, check};

use layout::SHEET_LIMIT;
use order::{EXPRESSIONS, SECTION_COUNT, SKETCHES, kind_at};
use rules::{Refusal, ask};
use walk::{Walk, section};

pub mod order;
mod table;
mod walk;

// Where the count of each section stands.
#[derive(Clone, Copy)]
pub struct Sections {
    pub rows: u16,
    pub settings: u16,
    pub sketches: u16,
    pub tables: u16,
    pub keys: u16,
    pub left_columns: u16,
    pub right_columns: u16,
    pub left_classes: u16,
    pub right_classes: u16,
    pub expressions: u16,
    pub operands: u16,
    pub conjuncts: u16,
}

// A sheet's bytes, and where its sections stand in them.
#[derive(Clone, Copy)]
pub struct View<'a> {
    pub bytes: &'a [u8],
    pub sections: Sections,
}

// Where a sheet's sections stand, or the first rule that it breaks.
#[tactic(auto, using(rules::proofs::RuleLaws::rest_next, rules::proofs::RuleLaws::rest_none, rules::proofs::LoopLaws::number_not, rules::proofs::LoopLaws::refused_at, crate::proofs::RoomLaws::next_room, crate::proofs::PlaceLaws::starts_before, crate::proofs::PlaceLaws::starts_next, crate::proofs::PlaceLaws::starts_all, crate::proofs::PlaceLaws::short_none, crate::proofs::PlaceLaws::short_set, crate::proofs::VerdictLaws::refused_back, crate::proofs::VerdictLaws::end_back, crate::proofs::VerdictLaws::section_told, crate::proofs::VerdictLaws::long_refused, crate::proofs::VerdictLaws::sheet_short, crate::proofs::VerdictLaws::sheet_broken, crate::proofs::VerdictLaws::end_refused, crate::proofs::VerdictLaws::end_accepted, crate::proofs::OwnerLaws::runs_known), unfolding(crate::specs::Order::section_at, crate::proofs::PlaceLaws::starts_before))]
pub fn check(s: &[u8]) -> Result<Sections, Refusal>
    ensures { checked_of result ≡ check s.now }
{
    ask(s.len() <= SHEET_LIMIT, Refusal::Length)?;
    let mut starts = [0u16; SECTION_COUNT];
    let mut at: usize = 0;
    // A loop and no chain: each turn reads the starts that the turns before it noted.
    for k in 0..SECTION_COUNT {
        starts[k] = at as u16;
        let walk = Walk {
            s,
            kind: kind_at(k),
            sketches: usize::from(starts[SKETCHES]),
            expressions: starts[EXPRESSIONS],
            start: at,
        };
        at = section(&walk)?;
    }
    ask(at == s.len(), Refusal::Trailing)?;
    Ok(Sections::from(starts))
}
