// The sections of a sheet in their order. Numbers and not an enum: they index the list of the sections' starts, and as
// an enum each would be cast where it does.
ghost use Rattle.std.specs.Prelude.{◌≡◌};
ghost use Rattle.sheet.specs.Order.{kind_at, sections_of};

use crate::Sections;

pub const ROWS: usize = 0;

pub const SETTINGS: usize = ROWS + 1;

pub const SKETCHES: usize = SETTINGS + 1;

pub const TABLES: usize = SKETCHES + 1;

pub const KEYS: usize = TABLES + 1;

pub const LEFT_COLUMNS: usize = KEYS + 1;

pub const RIGHT_COLUMNS: usize = LEFT_COLUMNS + 1;

pub const LEFT_CLASSES: usize = RIGHT_COLUMNS + 1;

pub const RIGHT_CLASSES: usize = LEFT_CLASSES + 1;

pub const EXPRESSIONS: usize = RIGHT_CLASSES + 1;

pub const OPERANDS: usize = EXPRESSIONS + 1;

pub const CONJUNCTS: usize = OPERANDS + 1;

pub const SECTION_COUNT: usize = CONJUNCTS + 1;

// What the sections' records are.
#[derive(Clone, Copy)]
pub enum Kind {
    Rows,
    Settings,
    Sketches,
    Tables,
    Keys,
    Columns,
    Classes,
    Expressions,
    Operands,
    Conjuncts,
}

// No `From`: the number is a section's and not a kind's. No `TryFrom`: every number gives a kind.
pub fn kind_at(k: usize) -> Kind
    ensures { result ≡ kind_at k }
{
    match k {
        ROWS => Kind::Rows,
        SETTINGS => Kind::Settings,
        SKETCHES => Kind::Sketches,
        TABLES => Kind::Tables,
        KEYS => Kind::Keys,
        LEFT_COLUMNS | RIGHT_COLUMNS => Kind::Columns,
        LEFT_CLASSES | RIGHT_CLASSES => Kind::Classes,
        EXPRESSIONS => Kind::Expressions,
        OPERANDS => Kind::Operands,
        _ => Kind::Conjuncts,
    }
}

impl From<[u16; SECTION_COUNT]> for Sections {
    ghost from_gives = { λ starts sections. sections ≡ sections_of starts };

    fn from(starts: [u16; SECTION_COUNT]) -> Sections {
        Sections {
            rows: starts[ROWS],
            settings: starts[SETTINGS],
            sketches: starts[SKETCHES],
            tables: starts[TABLES],
            keys: starts[KEYS],
            left_columns: starts[LEFT_COLUMNS],
            right_columns: starts[RIGHT_COLUMNS],
            left_classes: starts[LEFT_CLASSES],
            right_classes: starts[RIGHT_CLASSES],
            expressions: starts[EXPRESSIONS],
            operands: starts[OPERANDS],
            conjuncts: starts[CONJUNCTS],
        }
    }
}
