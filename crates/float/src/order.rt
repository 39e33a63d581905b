// The larger and the smaller of two floats, a float brought into 0..1, and one without its sign.
ghost use Rattle.std.specs.Prelude.{◌≡◌};
ghost use Rattle.float.specs.Order.{f64_max, f64_min, clamp_unit, absolute};

// Not std's `max` and `min`: those may give either of two zeros of unlike sign.
pub fn f64_max(x: f64, y: f64) -> f64
    ensures { result ≡ f64_max x y }
{
    if x < y { y } else { x }
}

pub fn f64_min(x: f64, y: f64) -> f64
    ensures { result ≡ f64_min x y }
{
    if y < x { y } else { x }
}

pub fn clamp_unit(x: f64) -> f64
    ensures { result ≡ clamp_unit x }
{
    x.clamp(0.0, 1.0)
}

// Not std's `abs`, which takes the sign of -0 off.
pub fn absolute(x: f64) -> f64
    ensures { result ≡ absolute x }
{
    if x < 0.0 { -x } else { x }
}
