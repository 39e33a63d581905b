// The 19 bytes of a scalar in a sheet: read with the scalar rules, and written.
#![tactic(auto)]

mod digits;
pub mod reads;
pub mod tags;
pub mod writes;
