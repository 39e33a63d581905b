// The bytes of an estimate: source, flags, value, lower, upper. That `at < 2 ^ 62` says that the places of its fields
// fit a usize; each sum is a new place, so a type that held the bound would owe it anew.
ghost use Rattle.std.specs.Prelude.{◌≡◌, ◌≤◌, ◌<◌, ◌^◌, length};
ghost use Rattle.le.specs.Fields.{onto};
ghost use Rattle.rules.specs.Rules.{outcome_number};
ghost use Rattle.layout.specs.Places.{estimate_size};
ghost use Rattle.estimate.specs.Bytes.{source_number, source_of, lower_flag, upper_flag, flags_number, option_at, estimate_at, figure_lawful, bound_refusal, estimate_refusal, option_bits, estimate_bytes};

use crate::{Estimate, EstimateSource, estimate_of};
use float::bits::bits_of_float;
use float::ranges::zero_or_between;
use layout::{
    ESTIMATE_FLAGS_OFFSET, ESTIMATE_LOWER_OFFSET, ESTIMATE_UPPER_OFFSET, ESTIMATE_VALUE_OFFSET,
};
use le::floats::{f64_at, put_f64};
use le::reads::{byte_at, u64_at};
use le::writes::{put_byte, put_u64};
use rules::{Refusal, ask};

impl From<EstimateSource> for u8 {
    ghost from_gives = { λ source n. n ≡ source_number source };

    fn from(source: EstimateSource) -> u8 {
        match source {
            EstimateSource::Exact => 0,
            EstimateSource::Catalog => 1,
            EstimateSource::Sketch => 2,
            EstimateSource::Derived => 3,
            EstimateSource::Default => 4,
        }
    }
}

// A number that stands for no source gives Default.
impl From<u8> for EstimateSource {
    ghost from_gives = { λ n source. source ≡ source_of n };

    fn from(n: u8) -> EstimateSource {
        match n {
            0 => EstimateSource::Exact,
            1 => EstimateSource::Catalog,
            2 => EstimateSource::Sketch,
            3 => EstimateSource::Derived,
            _ => EstimateSource::Default,
        }
    }
}

fn lower_flag(flags: u8) -> bool
    ensures { result ≡ lower_flag flags }
{
    flags % 2 == 1
}

fn upper_flag(flags: u8) -> bool
    ensures { result ≡ upper_flag flags }
{
    flags / 2 % 2 == 1
}

fn flags_number(e: Estimate) -> u8
    ensures { result ≡ flags_number e }
{
    u8::from(e.has_lower) + 2 * u8::from(e.has_upper)
}

fn option_at(present: bool, s: &[u8], at: usize) -> Option<f64>
    ensures { result ≡ option_at present s.now at }
{
    present.then_some(f64_at(s, at))
}

// The estimate at a place, whatever the bytes are.
#[tactic(auto, unfolding(crate::specs::Bytes::estimate_at))]
pub fn estimate_at(s: &[u8], at: usize) -> Estimate
    requires { at < 2 ^ 62 }
    ensures { result ≡ estimate_at s.now at }
{
    let flags = byte_at(s, at + ESTIMATE_FLAGS_OFFSET);
    estimate_of(
        f64_at(s, at + ESTIMATE_VALUE_OFFSET),
        option_at(lower_flag(flags), s, at + ESTIMATE_LOWER_OFFSET),
        option_at(upper_flag(flags), s, at + ESTIMATE_UPPER_OFFSET),
        EstimateSource::from(byte_at(s, at)),
    )
}

// Whether x is a figure that a sheet may hold.
pub fn figure_lawful(x: f64) -> bool
    ensures { result ≡ figure_lawful x }
{
    zero_or_between(5.421010862427522e-20, 18446744073709551616.0, x)
}

fn bound_refusal(present: bool, s: &[u8], at: usize) -> Result<(), Refusal>
    ensures { outcome_number result ≡ bound_refusal present s.now at }
{
    if present {
        ask(figure_lawful(f64_at(s, at)), Refusal::Figure)
    } else {
        ask(u64_at(s, at) == 0, Refusal::Code)
    }
}

// The first rule of an estimate that the bytes at a place break.
#[tactic(auto, unfolding(crate::specs::Bytes::estimate_refusal))]
pub fn estimate_refusal(s: &[u8], at: usize) -> Result<(), Refusal>
    requires { at < 2 ^ 62 }
    ensures { outcome_number result ≡ estimate_refusal s.now at }
{
    // By the number: `From` gives every number a source.
    ask(byte_at(s, at) <= 4, Refusal::Code)?;
    let flags = byte_at(s, at + ESTIMATE_FLAGS_OFFSET);
    ask(flags <= 3, Refusal::Code)?;
    ask(
        figure_lawful(f64_at(s, at + ESTIMATE_VALUE_OFFSET)),
        Refusal::Figure,
    )?;
    bound_refusal(lower_flag(flags), s, at + ESTIMATE_LOWER_OFFSET)?;
    bound_refusal(upper_flag(flags), s, at + ESTIMATE_UPPER_OFFSET)
}

fn option_bits(x: Option<f64>) -> u64
    ensures { result ≡ option_bits x }
{
    match x {
        Some(x) => bits_of_float(x),
        None => 0,
    }
}

// The bytes of e at the front of out.
pub fn put_estimate(out: &mut [u8], e: Estimate)
    requires { estimate_size ≤ length out.old }
    ensures { out.new ≡ onto (estimate_bytes e) out.old }
{
    put_byte(out, u8::from(e.source));
    put_byte(&mut out[ESTIMATE_FLAGS_OFFSET..], flags_number(e));
    put_f64(&mut out[ESTIMATE_VALUE_OFFSET..], e.value);
    put_u64(
        &mut out[ESTIMATE_LOWER_OFFSET..],
        option_bits(e.lower_bound()),
    );
    put_u64(
        &mut out[ESTIMATE_UPPER_OFFSET..],
        option_bits(e.upper_bound()),
    );
}
