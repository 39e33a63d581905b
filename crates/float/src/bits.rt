// A float and its bit pattern, for every pattern and every float.
ghost use Rattle.std.specs.Prelude.{◌≡◌, from_bits, to_bits};
ghost use Rattle.std.specs.Float.{binary64};

// The float that b is the pattern of. Every NaN pattern gives the one NaN.
pub fn float_of_bits(b: u64) -> f64
    ensures { result ≡ from_bits binary64 b }
{
    std::num::f64_from_bits_with_nan(b)
}

// The pattern of x. A NaN gives the quiet one, with the sign clear.
pub fn bits_of_float(x: f64) -> u64
    ensures { result ≡ to_bits binary64 x }
{
    std::num::f64_to_bits_with_nan(x)
}
