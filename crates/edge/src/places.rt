// Where the columns of a join stand in its two inputs, looked up once for all that is asked of them.
ghost use Rattle.std.specs.Prelude.{◌≡◌};
ghost use Rattle.lookup.specs.Lookup.{column_places};
ghost use Rattle.edge.specs.Places.{edge_places, exchanged_places, placed_distinct, placed_fraction};

use crate::EqualityEdge;
use layout::COLUMN_LIMIT;
use lookup::places::{column_places, place_of};
use lookup::profiles::{distinct_at, frequency_at};
use range::selectivity::non_null_fraction;
use sheet::View;

// The places of an equality's two columns in the inputs' lists.
#[derive(Clone, Copy)]
pub struct EdgePlaces {
    pub left_in_left: Option<u32>,
    pub left_in_right: Option<u32>,
    pub right_in_left: Option<u32>,
    pub right_in_right: Option<u32>,
}

// By the places that were noted for the two lists.
pub fn edge_places(
    sheet: &View,
    on_left: &[Option<u32>],
    on_right: &[Option<u32>],
    left: u16,
    right: u16,
) -> EdgePlaces
    requires { (on_left.now ≡ column_places sheet.now.bytes.now sheet.now.sections.left_columns) × (on_right.now ≡ column_places sheet.now.bytes.now sheet.now.sections.right_columns) }
    ensures { result ≡ edge_places sheet.now.bytes.now sheet.now.sections left right }
{
    let s = sheet.bytes;
    let q = sheet.sections;
    EdgePlaces {
        left_in_left: place_of(s, q.left_columns, on_left, left),
        left_in_right: place_of(s, q.right_columns, on_right, left),
        right_in_left: place_of(s, q.left_columns, on_left, right),
        right_in_right: place_of(s, q.right_columns, on_right, right),
    }
}

pub fn exchanged_places(places: EdgePlaces) -> EdgePlaces
    ensures { result ≡ exchanged_places places }
{
    EdgePlaces {
        left_in_left: places.right_in_left,
        left_in_right: places.right_in_right,
        right_in_left: places.left_in_left,
        right_in_right: places.left_in_right,
    }
}

// An edge of a sheet's join, and where its columns stand.
#[derive(Clone, Copy)]
pub struct PlacedEdge<'a> {
    pub sheet: View<'a>,
    pub edge: EqualityEdge,
    pub places: EdgePlaces,
    ghost placed: { places ≡ edge_places sheet.bytes.now sheet.sections edge.left edge.right },
}

// A sheet, and the places of all columns in the lists of its two inputs. Arrays, since the library has no heap.
#[derive(Clone, Copy)]
pub struct InputPlaces<'a> {
    pub sheet: View<'a>,
    on_left: [Option<u32>; COLUMN_LIMIT],
    on_right: [Option<u32>; COLUMN_LIMIT],
    ghost left_noted: { on_left ≡ column_places sheet.bytes.now sheet.sections.left_columns },
    ghost right_noted: { on_right ≡ column_places sheet.bytes.now sheet.sections.right_columns },
}

impl<'a> InputPlaces<'a> {
    pub fn of_sheet(sheet: View<'a>) -> InputPlaces<'a>
        ensures { result.sheet ≡ sheet.entry }
    {
        InputPlaces {
            sheet,
            on_left: column_places(sheet.bytes, sheet.sections.left_columns),
            on_right: column_places(sheet.bytes, sheet.sections.right_columns),
        }
    }

    pub fn placed(&self, edge: EqualityEdge) -> PlacedEdge<'a>
        ensures same_sheet { result.sheet ≡ self.now.sheet }
        ensures same_edge { result.edge ≡ edge }
    {
        PlacedEdge {
            sheet: self.sheet,
            edge,
            places: edge_places(
                &self.sheet,
                &self.on_left,
                &self.on_right,
                edge.left,
                edge.right,
            ),
        }
    }
}

// The distinct values of a column, by its places in the two inputs.
pub fn placed_distinct(s: &[u8], on_left: Option<u32>, on_right: Option<u32>) -> f64
    ensures { result ≡ placed_distinct s.now on_left on_right }
{
    match on_left.or(on_right) {
        Some(at) => distinct_at(s, at as usize),
        None => 1.0,
    }
}

// How often a column of the right input is not null. One that the left input has too is judged there.
pub fn placed_fraction(
    s: &[u8],
    on_left: Option<u32>,
    left_rows: f64,
    frequency: f64,
    right_rows: f64,
) -> f64
    ensures { result ≡ placed_fraction s.now on_left left_rows frequency right_rows }
{
    match on_left {
        Some(at) => non_null_fraction(frequency_at(s, at as usize), left_rows),
        None => non_null_fraction(frequency, right_rows),
    }
}
