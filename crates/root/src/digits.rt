// The binary digits of a square root, and what their square leaves of the number.
ghost use Rattle.std.specs.Prelude.{◌≡◌, ◌+◌, ◌*◌, ◌^◌, ◌<◌, ◌≤◌, IfSome};
ghost use Rattle.root.specs.Digits.{RootDigits, all_digits};
ghost use Rattle.root.specs.Guess.{guessed, guess, remainder_of, corrected};

// 2^27: a guess is split at it.
const PART: u64 = 0x800_0000;

// So many binary digits more than the whole root are found.
const MORE_DIGITS: u32 = 27;

// 2^64.
const GUESS_END: f64 = 18446744073709551616.0;

// A guess that is corrected lies below it, so that the root lies below 2^54.
const GUESS_LIMIT: u64 = 0x3f_ffff_ffff_ff00;

// 2^29: what the square of a guess's upper part leaves has to lie below it.
const UPPER_LIMIT: u64 = 0x2000_0000;

// 2^36: so has what twice the product of both parts leaves then.
const MIDDLE_LIMIT: u64 = 0x10_0000_0000;

// A guess is moved up by less than this.
const STEP_LIMIT: u64 = 64;

// digits * digits + rest is the number, and rest is at most 2 * digits. The number is w * 4^27 with w below
// 2^54, by a clause at each function: a type that holds w with it would be longer.
#[derive(Clone, Copy)]
pub struct Digits {
    pub digits: u64,
    pub rest: u64,
}

// The whole root of w: a number that may be it, or the library's.
fn whole_root(w: u64, near: u64) -> u64
    requires { w < 2 ^ 54 }
    ensures square_le { result * result ≤ w }
    ensures next_square_gt { w < (result + 1) * (result + 1) }
{
    if near < PART && near * near <= w && w < (near + 1) * (near + 1) {
        return near;
    }
    w.isqrt()
}

// The root of w * 4^27: the whole root of w, and MORE_DIGITS binary digits more. A loop, since each digit needs
// what the one before it left; the library's root of the whole number takes nearly three times as long.
fn exact_digits(w: u64, near: u64) -> Digits
    requires { w < 2 ^ 54 }
    ensures { RootDigits w result.digits result.rest }
{
    let mut digits = whole_root(w, near);
    let mut rest = w - digits * digits;
    'more: for _ in 0..MORE_DIGITS {
        let step = 4 * digits + 1;
        let left = 4 * rest;
        if step <= left {
            rest = left - step;
            digits = 2 * digits + 1;
        } else {
            rest = left;
            digits = 2 * digits;
        }
    }
    Digits { digits, rest }
}

// Near the root of w * 4^27 and a little below it, by the processor's arithmetic, where x is the
// float nearest to w.
fn guessed(x: f64) -> f64
    ensures { result ≡ guessed x }
{
    let s = x * 5.551115123125783e-17;
    let y = 3.0743311272572025
        + s * (-5.69307942682696 + s * (5.861523764356084 - s * 2.247896649133078));
    let e = 1.0 - s * y * y;
    let z = y + y * e * (0.5 + e * (0.375 + e * 0.3125));
    let r = s * z;
    (r + (s - r * r) * (0.5 * z)) * 18014398509481984.0 - 4.0
}

// The same as a whole number. `corrected` tests it.
fn guess(w: u64) -> u64
    ensures { result ≡ guess w }
{
    let g = guessed(std::num::nearest_u64_to_f64(w));
    if -1.0 < g && g < GUESS_END {
        return std::num::truncating_f64_to_u64(g);
    }
    0
}

// What g * g leaves of w * 4^27, where it leaves little.
#[tactic(auto, using(crate::proofs::Quick::remainder_none, crate::proofs::Quick::remainder_end))]
fn remainder_of(w: u64, g: u64) -> Option<u64>
    requires { (w < 2 ^ 54) × (g < 2 ^ 54) }
    ensures value { result ≡ remainder_of w g }
    ensures small { IfSome result (λ rest. rest < 2 ^ 63) }
{
    let a = g / PART;
    let b = g % PART;
    // Written out, as `?` at these two takes 1 % more instructions for a root.
    let Some(e) = w.checked_sub(a * a) else {
        return None;
    };
    if e >= UPPER_LIMIT {
        return None;
    }
    let Some(f) = (e * PART).checked_sub(2 * (a * b)) else {
        return None;
    };
    if f >= MIDDLE_LIMIT {
        return None;
    }
    (f * PART).checked_sub(b * b)
}

// The root of w * 4^27 from a number a little below it, where that passes the tests.
#[tactic(auto, using(crate::proofs::Quick::attempt_nowhere, crate::proofs::Quick::attempt_far, crate::proofs::Quick::attempt_short, crate::proofs::Quick::attempt_made), unfolding(crate::specs::Guess::corrected))]
fn corrected(w: u64, g: u64) -> Option<Digits>
    requires { w < 2 ^ 54 }
    ensures { result ≡ corrected w g }
{
    if g >= GUESS_LIMIT {
        return None;
    }
    let left = remainder_of(w, g)?;
    let q = left / (2 * g + 1);
    if q >= STEP_LIMIT {
        return None;
    }
    let rest = left.checked_sub(q * (2 * g + q))?;
    let digits = g + q;
    (rest <= 2 * digits).then_some(Digits { digits, rest })
}

// All digits of the root of w * 4^27 and the remainder: a guess that is tested, and digit by digit where the
// test fails, from the guess's whole part.
pub fn root_digits(w: u64) -> Digits
    requires { w < 2 ^ 54 }
    ensures root_digits { RootDigits w result.digits result.rest }
    ensures value { result ≡ all_digits w }
{
    let g = guess(w);
    corrected(w, g).unwrap_or_else(|| exact_digits(w, g / PART))
}
