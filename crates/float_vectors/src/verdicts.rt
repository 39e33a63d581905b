// Whether a record's expected bits are those that the crates compute.
#![tactic(auto, unfolding(crate::specs::Verdicts::case_of, crate::specs::Verdicts::agrees_with))]

ghost use Rattle.std.specs.Prelude.{◌≡◌};
ghost use Rattle.float_vectors.specs.Verdicts.{value_of, case_of, agrees};

use crate::kinds::Kind;
use float::bits::{bits_of_float, float_of_bits};
use float::integers::{nearest_difference, nearest_i64};
use float::tens::power_of_ten;
use le::reads::u64_at;
use power::power;
use root::root;
use signed::signed_u64;

// A record: its kind, and from these places on eight bytes of a, of b and of the expected bits.
const A: usize = 1;

const B: usize = 9;

const EXPECTED: usize = 17;

pub const RECORD_SIZE: usize = 25;

pub type Record = [u8; RECORD_SIZE];

// What a record claims: that these are the bits of the value that its kind gives of a and b.
#[derive(Clone, Copy)]
pub struct Case {
    pub kind: Option<Kind>,
    a: u64,
    b: u64,
    expected: u64,
}

impl From<&Record> for Case {
    ghost from_gives = { λ bytes case. case ≡ case_of bytes.now };

    fn from(bytes: &Record) -> Case {
        Case {
            kind: Kind::try_from(bytes[0]).ok(),
            a: u64_at(bytes, A),
            b: u64_at(bytes, B),
            expected: u64_at(bytes, EXPECTED),
        }
    }
}

// By the kind: a trait with a type for each would be longer. `power_of_ten` gives 10^22 for every exponent
// from 22 on.
#[tactic(auto, using(crate::proofs::TenLaws::to_22), unfolding(crate::specs::Verdicts::value_of))]
fn value_of(kind: Kind, a: u64, b: u64) -> f64
    ensures { result ≡ value_of kind a b }
{
    match kind {
        Kind::Root => root(float_of_bits(a)),
        Kind::Power => power(float_of_bits(a), float_of_bits(b)),
        Kind::Difference => nearest_difference(signed_u64(a), signed_u64(b), false),
        Kind::NextDifference => nearest_difference(signed_u64(a), signed_u64(b), true),
        Kind::Integer => nearest_i64(signed_u64(a)),
        Kind::Ten => power_of_ten(a.min(22) as u8),
    }
}

impl Case {
    // A kind that is not known agrees with nothing.
    pub fn agrees(&self) -> bool
        ensures { result ≡ agrees self.now }
    {
        self.kind.is_some_and(|kind| bits_of_float(value_of(kind, self.a, self.b)) == self.expected)
    }
}
