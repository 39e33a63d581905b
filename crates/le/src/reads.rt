// Fields read at any place.
#![tactic(auto, unfolding(crate::specs::Fields::field_at))]

ghost use Rattle.std.specs.Prelude.{◌≡◌, ℕ, ◌+◌, ◌-◌, ◌≤◌, ◌<◌, ◌^◌, leb, length, slice_index};
ghost use Rattle.le.specs.Fields.{byte_at, field_at, u16_at, u32_at, u64_at};

use std::array;

pub fn byte_at(s: &[u8], at: usize) -> u8
    ensures { result ≡ byte_at s.now at }
{
    s.get(at).copied().unwrap_or(0)
}

// How many bytes stand from the place on.
pub fn left(s: &[u8], at: usize) -> usize
    ensures { result ≡ length s.now - at }
{
    s.len().saturating_sub(at)
}

// The place n bytes before, 0 where there is none.
pub fn before(at: usize, n: usize) -> usize
    ensures { result ≡ at - n }
{
    at.saturating_sub(n)
}

// Whether n bytes stand from the place on.
fn has(s: &[u8], at: usize, n: usize) -> bool
    ensures { result ≡ leb (at + n) (length s.now) }
{
    n <= s.len() && at <= s.len() - n
}

// N bytes that are there.
fn bytes_at<const N: usize>(s: &[u8], at: usize) -> [u8; N]
    requires { at + N ≤ length s.now }
    ensures { (i : ℕ) → i < N → slice_index result i ≡ byte_at s.now (at + i) }
{
    let mut bytes = [0; N];
    bytes.copy_from_slice(&s[at..at + N]);
    bytes
}

// The bytes, and zeros behind them. Byte by byte: a copy of a slice would be the C library's.
fn padded(bytes: &[u8]) -> [u8; 8]
    requires { length bytes.now ≤ 8 }
    ensures { (i : ℕ) → slice_index result i ≡ byte_at bytes.now i }
{
    array::from_fn(|i| byte_at(bytes, i))
}

// The number of n bytes that the end may cut. What is not there counts as 0.
#[cold]
#[inline(never)]
fn cut_at(s: &[u8], at: usize, n: usize) -> u64
    requires { n ≤ 8 }
    ensures { result ≡ field_at n s.now at }
{
    let rest = s.get(at..).unwrap_or(&[]);
    u64::from_le_bytes(padded(&rest[..n.min(rest.len())]))
}

// Four bytes that are there, and eight: a loop over items tests once, in front of it, that they are. Two and no generic
// one: `from_le_bytes` is no trait's.
pub fn quad_at(s: &[u8], at: usize) -> u64
    requires { at + 4 ≤ length s.now }
    ensures { (result ≡ u32_at s.now at) × (result < 2 ^ 32) }
{
    u64::from(u32::from_le_bytes(bytes_at(s, at)))
}

pub fn word_at(s: &[u8], at: usize) -> u64
    requires { at + 8 ≤ length s.now }
    ensures { result ≡ u64_at s.now at }
{
    u64::from_le_bytes(bytes_at(s, at))
}

// One generic reader for the three, by arrays of N bytes that the end may cut, was tried: it makes
// the loops round `u16_at` slower.
pub fn u16_at(s: &[u8], at: usize) -> u16
    ensures { result ≡ u16_at s.now at }
{
    if has(s, at, 2) {
        return u16::from_le_bytes(bytes_at(s, at));
    }
    u16::from(byte_at(s, at))
}

pub fn u32_at(s: &[u8], at: usize) -> u32
    ensures { result ≡ u32_at s.now at }
{
    if has(s, at, 4) {
        return u32::from_le_bytes(bytes_at(s, at));
    }
    cut_at(s, at, 4) as u32
}

pub fn u64_at(s: &[u8], at: usize) -> u64
    ensures { result ≡ u64_at s.now at }
{
    if has(s, at, 8) {
        return u64::from_le_bytes(bytes_at(s, at));
    }
    cut_at(s, at, 8)
}
