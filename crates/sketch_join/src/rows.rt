// The rows of sketches, where they stand.
ghost use Rattle.std.specs.Prelude.{◌≡◌};
ghost use Rattle.records.specs.Sketches.{sketch_at};
ghost use Rattle.sketch_join.specs.SketchJoin.{non_null_rows, either_empty};

use range::selectivity::non_null_fraction;
use records::columns::ColumnProfile;
use sketch::items::population;
use std::num::nearest_u64_to_f64;

#[tactic(auto, unfolding(crate::specs::SketchJoin::non_null_rows))]
pub fn non_null_rows(s: &[u8], at: usize, profile: ColumnProfile, rows: f64) -> f64
    ensures { result ≡ non_null_rows (sketch_at s.now at) profile rows }
{
    nearest_u64_to_f64(population(s, at)) * non_null_fraction(profile.frequency.value, rows)
}

// At any two places, so they are plain numbers.
pub fn either_empty(s: &[u8], first: usize, second: usize) -> bool
    ensures { result ≡ either_empty (sketch_at s.now first) (sketch_at s.now second) }
{
    population(s, first) == 0 || population(s, second) == 0
}
