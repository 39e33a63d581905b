// The rules of expressions, and of the operands and conjuncts that name them. A function named for a
// refusal gives the first rule broken, in the order of the bytes. The bounds of places and of numbers say that the sums
// which make the places of fields fit a usize; each sum is a new place, so a type that held the bound would owe it anew.
#![tactic(auto)]

pub mod expressions;
pub mod operands;
