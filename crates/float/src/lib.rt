// binary64 as every figure uses it: bit patterns, order, ranges, integers rounded once, powers of
// ten. Each contract gives the result in the words of the library's account of IEEE 754.
#![tactic(auto)]

pub mod bits;
pub mod integers;
pub mod order;
pub mod ranges;
pub mod tens;
