// The kinds of value that a list has cases of.
ghost use Rattle.std.specs.Prelude.{◌≡◌};
ghost use Rattle.float_vectors.specs.Kinds.{kind_of};

use std::fmt;

#[derive(Clone, Copy, PartialEq, Eq)]
pub enum Kind {
    Root,
    Power,
    Difference,
    NextDifference,
    Integer,
    Ten,
}

pub const KINDS: [Kind; 6] = [
    Kind::Root,
    Kind::Power,
    Kind::Difference,
    Kind::NextDifference,
    Kind::Integer,
    Kind::Ten,
];

// A number that stands for no kind.
#[derive(Clone, Copy)]
pub struct UnknownKind;

impl TryFrom<u8> for Kind {
    type Error = UnknownKind;

    ghost try_from_gives = { λ number outcome. outcome ≡ kind_of number };

    fn try_from(number: u8) -> Result<Kind, UnknownKind> {
        match number {
            1 => Ok(Kind::Root),
            2 => Ok(Kind::Power),
            3 => Ok(Kind::Difference),
            4 => Ok(Kind::NextDifference),
            5 => Ok(Kind::Integer),
            6 => Ok(Kind::Ten),
            _ => Err(UnknownKind),
        }
    }
}

impl fmt::Display for Kind {
    fn fmt<W: fmt::Write>(&self, f: &mut fmt::Formatter<W>) -> fmt::Result {
        f.write_str(match self {
            Kind::Root => "root",
            Kind::Power => "power",
            Kind::Difference => "difference",
            Kind::NextDifference => "difference plus one",
            Kind::Integer => "integer",
            Kind::Ten => "power of ten",
        })
    }
}
