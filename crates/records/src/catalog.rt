// The catalog: tables with their row counts, and keys of one column.
ghost use Rattle.std.specs.Prelude.{◌≡◌, ◌<◌, ◌^◌};
ghost use Rattle.records.specs.Catalog.{key_kind_of, row_count_of, table_at, key_at};

use crate::columns::BaseColumn;
use layout::{
    KEY_COLUMN_OFFSET, KEY_REFERENCED_COLUMN_OFFSET, KEY_REFERENCED_TABLE_OFFSET, KEY_TABLE_OFFSET,
    TABLE_ROWS_OFFSET, UNKNOWN_COUNT,
};
use le::reads::{byte_at, u16_at, u64_at};

// A table with its number of rows, if that is known.
#[derive(Clone, Copy, Debug, PartialEq, Eq)]
pub struct Table {
    pub table: u16,
    pub rows: Option<u64>,
}

#[derive(Clone, Copy, Debug, PartialEq, Eq)]
pub enum Key {
    Unique(BaseColumn),
    Foreign {
        column: BaseColumn,
        referenced: BaseColumn,
    },
}

// What a key is, without its columns.
#[derive(Clone, Copy, Debug, PartialEq, Eq)]
pub enum KeyKind {
    Unique,
    Foreign,
}

// A number that stands for no kind of key.
#[derive(Clone, Copy, Debug, PartialEq, Eq)]
pub struct UnknownKeyKind;

impl TryFrom<u8> for KeyKind {
    type Error = UnknownKeyKind;

    ghost try_from_gives = { λ n outcome. outcome ≡ key_kind_of n };

    fn try_from(n: u8) -> Result<KeyKind, UnknownKeyKind> {
        match n {
            1 => Ok(KeyKind::Unique),
            2 => Ok(KeyKind::Foreign),
            _ => Err(UnknownKeyKind),
        }
    }
}

fn row_count_of(n: u64) -> Option<u64>
    ensures { result ≡ row_count_of n }
{
    (n != UNKNOWN_COUNT).then_some(n)
}

#[tactic(auto, unfolding(crate::specs::Catalog::table_at))]
pub fn table_at(s: &[u8], at: usize) -> Table
    requires { at < 2 ^ 60 }
    ensures { result ≡ table_at s.now at }
{
    Table {
        table: u16_at(s, at),
        rows: row_count_of(u64_at(s, at + TABLE_ROWS_OFFSET)),
    }
}

#[tactic(auto, unfolding(crate::specs::Catalog::key_at))]
pub fn key_at(s: &[u8], at: usize) -> Key
    requires { at < 2 ^ 60 }
    ensures { result ≡ key_at s.now at }
{
    let column = BaseColumn {
        table: u16_at(s, at + KEY_TABLE_OFFSET),
        column: u16_at(s, at + KEY_COLUMN_OFFSET),
    };
    if KeyKind::try_from(byte_at(s, at)) == Ok(KeyKind::Unique) {
        return Key::Unique(column);
    }
    Key::Foreign {
        column,
        referenced: BaseColumn {
            table: u16_at(s, at + KEY_REFERENCED_TABLE_OFFSET),
            column: u16_at(s, at + KEY_REFERENCED_COLUMN_OFFSET),
        },
    }
}
