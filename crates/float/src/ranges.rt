// Whether a float lies in a range.
ghost use Rattle.std.specs.Prelude.{◌≡◌};
ghost use Rattle.float.specs.Ranges.{plus_zero, between, zero_or_between};

#[tactic(auto, using(crate::proofs::RangeLaws::plus_zero_bits))]
pub fn plus_zero(x: f64) -> bool
    ensures { result ≡ plus_zero x }
{
    crate::bits::bits_of_float(x) == 0
}

#[tactic(auto, using(crate::proofs::RangeLaws::ordered_le))]
pub fn between(low: f64, high: f64, x: f64) -> bool
    ensures { result ≡ between low high x }
{
    (low..=high).contains(&x)
}

pub fn zero_or_between(low: f64, high: f64, x: f64) -> bool
    ensures { result ≡ zero_or_between low high x }
{
    plus_zero(x) || between(low, high, x)
}
