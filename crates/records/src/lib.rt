// The records of a sheet as values. Each is read at its place, whatever the bytes there are: whether
// they keep the sheet's rules is another crate's question.
//
// A place is a usize, and what is read stands at sums: `at < 2 ^ 60` and its like say that they fit. Each sum is a new
// place, so a type that held the bound would owe it anew at each of them.
#![tactic(auto)]

pub mod catalog;
pub mod classes;
pub mod columns;
pub mod expressions;
pub mod settings;
pub mod sketches;
