// Tables and keys.
ghost use Rattle.std.specs.Prelude.{◌≡◌, ◌<◌, ◌^◌};
ghost use Rattle.rules.specs.Rules.{outcome_number};
ghost use Rattle.records.specs.Catalog.{key_code};
ghost use Rattle.record_rules.specs.Catalog.{row_count_lawful, table_refusal, referenced_refusal, key_refusal};

use crate::fields::{ascending, count_lawful, is_none, whole};
use layout::{
    KEY_REFERENCED_COLUMN_OFFSET, KEY_REFERENCED_TABLE_OFFSET, KEY_SIZE, TABLE_ROWS_OFFSET,
    TABLE_SIZE, UNKNOWN_COUNT,
};
use le::reads::{byte_at, u16_at, u64_at};
use records::catalog::KeyKind;
use rules::{Refusal, ask};

// A number of rows that is known, or unknown.
fn row_count_lawful(n: u64) -> bool
    ensures { result ≡ row_count_lawful n }
{
    count_lawful(n) || n == UNKNOWN_COUNT
}

#[tactic(auto, unfolding(crate::specs::Catalog::table_refusal))]
pub fn table_refusal(s: &[u8], i: usize, at: usize) -> Result<(), Refusal>
    requires { at < 2 ^ 60 }
    ensures { outcome_number result ≡ table_refusal s.now i at }
{
    whole(TABLE_SIZE, s, at)?;
    ask(ascending(TABLE_SIZE, s, i, at), Refusal::Order)?;
    let rows = u64_at(s, at + TABLE_ROWS_OFFSET);
    ask(row_count_lawful(rows), Refusal::Figure)
}

// A unique key references nothing.
fn referenced_refusal(kind: KeyKind, s: &[u8], at: usize) -> Result<(), Refusal>
    ensures { outcome_number result ≡ referenced_refusal (key_code kind) s.now at }
{
    ask(
        kind == KeyKind::Foreign || is_none(u16_at(s, at)),
        Refusal::Code,
    )
}

#[tactic(auto, using(records::proofs::KindLaws::key_kinds), unfolding(crate::specs::Catalog::key_refusal))]
pub fn key_refusal(s: &[u8], at: usize) -> Result<(), Refusal>
    requires { at < 2 ^ 60 }
    ensures { outcome_number result ≡ key_refusal s.now at }
{
    whole(KEY_SIZE, s, at)?;
    let kind = KeyKind::try_from(byte_at(s, at)).map_err(|_| Refusal::Code)?;
    referenced_refusal(kind, s, at + KEY_REFERENCED_TABLE_OFFSET)?;
    referenced_refusal(kind, s, at + KEY_REFERENCED_COLUMN_OFFSET)
}
