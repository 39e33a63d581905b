// How much of the values of two columns lies where their ranges overlap.
#![tactic(auto)]

ghost use Rattle.std.specs.Prelude.{◌≡◌};
ghost use Rattle.interval.specs.Intervals.{zip_bounds};

pub mod fraction;
pub mod intersection;

#[derive(Clone, Copy)]
pub struct Interval<T> {
    pub lower: T,
    pub upper: T,
}

// The interval from one bound to the other, where both are known.
fn zip_bounds<T: Copy>(lower: Option<T>, upper: Option<T>) -> Option<Interval<T>>
    ensures { result ≡ zip_bounds lower upper }
{
    Some(Interval {
        lower: lower?,
        upper: upper?,
    })
}
