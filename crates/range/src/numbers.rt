// scalar_to_f64 of the source's analysis.rs for scalars where they stand in a sheet.
ghost use Rattle.std.specs.Prelude.{◌≡◌, ◌<◌, ◌^◌};
ghost use Rattle.scalar.specs.Number.{scalar_to_f64};
ghost use Rattle.scalar_bytes.specs.Reading.{scalar_at, bound_at};
ghost use Rattle.range.specs.Range.{bound_number};

use float::integers::nearest_i64;
use float::tens::power_of_ten;
use layout::{DECIMAL_DIGITS_OFFSET, DECIMAL_SCALE_OFFSET, SCALAR_VALUE_OFFSET};
use le::floats::f64_at;
use le::integers::{i32_at, i64_at};
use le::reads::byte_at;
use scalar_bytes::tags::{DATE32, DECIMAL128, FLOAT64, INT32, INT64};

// By its tag.
#[tactic(auto, using(signed::proofs::SignedLaws::kept, crate::proofs::NumberLaws::no_number), unfolding(scalar::specs::Number::scalar_to_f64, scalar_bytes::specs::Reading::scalar_at))]
pub fn number_at(s: &[u8], at: usize) -> Option<f64>
    requires { at < 2 ^ 60 }
    ensures { result ≡ scalar_to_f64 (scalar_at s.now at) }
{
    let tag = byte_at(s, at);
    match tag {
        INT32 | DATE32 => Some(nearest_i64(i64::from(i32_at(s, at + SCALAR_VALUE_OFFSET)))),
        INT64 => Some(nearest_i64(i64_at(s, at + SCALAR_VALUE_OFFSET))),
        FLOAT64 => Some(f64_at(s, at + SCALAR_VALUE_OFFSET)),
        DECIMAL128 => Some(
            nearest_i64(i64_at(s, at + (SCALAR_VALUE_OFFSET + DECIMAL_DIGITS_OFFSET)))
                / power_of_ten(byte_at(s, at + (SCALAR_VALUE_OFFSET + DECIMAL_SCALE_OFFSET))),
        ),
        _ => None,
    }
}

// Of a bound, by the same bytes: the tag of one that is absent is no number's. Beside `number_at`, since
// its contract speaks of an `Option`.
#[tactic(auto, using(crate::proofs::NumberLaws::bound_number_law))]
pub fn bound_number_at(s: &[u8], at: usize) -> Option<f64>
    requires { at < 2 ^ 60 }
    ensures { result ≡ bound_number (bound_at s.now at) }
{
    number_at(s, at)
}
