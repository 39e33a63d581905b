// Little-endian fields of a slice. Behind its end every byte counts as 0: a reader asks nothing of
// its caller, but for the two that are told that the bytes are there (`quad_at`, `word_at`). A slice and a place stand
// side by side and not in one struct: each field has a place of its own, for which a struct would be made anew.
#![tactic(auto)]

pub mod floats;
pub mod integers;
pub mod reads;
pub mod writes;
