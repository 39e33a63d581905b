// Where the fields of a command stand, by the names of specs/Commands, and what kinds of commands there
// are.
ghost use Rattle.std.specs.Prelude.{◌≡◌};
ghost use Rattle.sheet_claims.specs.Kinds.{numbered_kind, kind_of};

use le::reads::byte_at;

#[derive(Clone, Copy, PartialEq, Eq)]
pub enum Kind {
    Store,
    Refused,
    Accepted,
    Prefixes,
    StoreAnswer,
    Join,
    Predicate,
    Split,
}

// A number that stands for no kind.
#[derive(Clone, Copy)]
pub struct UnknownKind;

impl TryFrom<u8> for Kind {
    type Error = UnknownKind;

    ghost try_from_gives = { λ number outcome. outcome ≡ numbered_kind number };

    fn try_from(number: u8) -> Result<Kind, UnknownKind> {
        match number {
            1 => Ok(Kind::Store),
            2 => Ok(Kind::Refused),
            3 => Ok(Kind::Accepted),
            4 => Ok(Kind::Prefixes),
            5 => Ok(Kind::StoreAnswer),
            6 => Ok(Kind::Join),
            7 => Ok(Kind::Predicate),
            8 => Ok(Kind::Split),
            _ => Err(UnknownKind),
        }
    }
}

// The kind of a command.
pub fn kind_of(c: &[u8]) -> Option<Kind>
    ensures { result ≡ kind_of c.now }
{
    Kind::try_from(byte_at(c, KIND_OFFSET)).ok()
}

pub const COMMAND_SIZE: usize = 32;

// ---- the head

pub const KIND_OFFSET: usize = 0;

// The number of a refusal.
pub const NUMBER_OFFSET: usize = KIND_OFFSET + 1;

pub const EXPRESSION_OFFSET: usize = NUMBER_OFFSET + 1;

// How many bytes of the sheets' buffer are the sheet.
pub const LENGTH_OFFSET: usize = EXPRESSION_OFFSET + 2;

pub const HEAD_SIZE: usize = LENGTH_OFFSET + 4;

// ---- behind it, what is to come out: where it stands in the answers' buffer, and how many bytes it has

pub const PLACE_OFFSET: usize = HEAD_SIZE;

pub const SIZE_OFFSET: usize = PLACE_OFFSET + 4;

// ---- a store: how many bytes, where they go, and the bytes

pub const STORE_COUNT_OFFSET: usize = EXPRESSION_OFFSET;

pub const STORE_PLACE_OFFSET: usize = LENGTH_OFFSET;

pub const STORE_BYTES_OFFSET: usize = HEAD_SIZE;

pub const STORE_LIMIT: usize = COMMAND_SIZE - HEAD_SIZE;
