// Rules that several records share.
ghost use Rattle.std.specs.Prelude.{◌≡◌};
ghost use Rattle.rules.specs.Rules.{outcome_number};
ghost use Rattle.layout.specs.Fields.{whole};
ghost use Rattle.record_rules.specs.Fields.{ascending, count_lawful, is_none};

use layout::{COUNT_LIMIT, NO_NUMBER};
use le::reads::{before, left, u16_at};
use rules::{Refusal, ask};

// n bytes stand from the place on.
pub fn whole(n: usize, s: &[u8], at: usize) -> Result<(), Refusal>
    ensures { outcome_number result ≡ whole n s.now at }
{
    ask(n <= left(s, at), Refusal::Truncated)
}

// Whether the number at the front of record i is above that of the record before it, records being
// size bytes long.
#[tactic(auto, unfolding(crate::specs::Fields::ascending))]
pub fn ascending(size: usize, s: &[u8], i: usize, at: usize) -> bool
    ensures { result ≡ ascending size s.now i at }
{
    i == 0 || u16_at(s, before(at, size)) < u16_at(s, at)
}

// Whether n may stand for a number of rows or of occurrences.
pub fn count_lawful(n: u64) -> bool
    ensures { result ≡ count_lawful n }
{
    n <= COUNT_LIMIT
}

// Whether the number stands for nothing.
pub fn is_none(n: u16) -> bool
    ensures { result ≡ is_none n }
{
    n == NO_NUMBER
}
