// The places of the columns of one side, noted once for all of them.
ghost use Rattle.std.specs.Prelude.{◌≡◌};
ghost use Rattle.lookup.specs.Lookup.{column_place, column_places};

use layout::{COLUMN_LIMIT, COLUMN_SIZE, COUNT_SIZE};
use le::reads::u16_at;
use scan::first_place;

// From the last profile to the first, so that the first of a column is the one that stays. A loop,
// since no method of the library writes where the records say; and a test in place of `get_mut`,
// after which a proof knows no element. The columns' count stands at `start`.
#[tactic(auto, using(crate::proofs::NotedLaws::noted_first, crate::proofs::NotedLaws::noted_all))]
pub fn column_places(s: &[u8], start: u16) -> [Option<u32>; COLUMN_LIMIT]
    ensures { result ≡ column_places s.now start }
{
    let mut places = [None; COLUMN_LIMIT];
    for i in (0..usize::from(u16_at(s, usize::from(start)))).rev() {
        let at = usize::from(start) + COUNT_SIZE + COLUMN_SIZE * i;
        let column = usize::from(u16_at(s, at));
        if column < COLUMN_LIMIT {
            places[column] = Some(at as u32);
        }
    }
    places
}

// The place of any column, by the places that were noted.
pub fn place_of(s: &[u8], start: u16, places: &[Option<u32>], column: u16) -> Option<u32>
    requires { places.now ≡ column_places s.now start }
    ensures { result ≡ column_place s.now start column }
{
    match places.get(usize::from(column)) {
        Some(place) => *place,
        None => first_place(s, start, COLUMN_SIZE, column),
    }
}
