// The rules of rows, settings, tables, keys, columns and classes. A function named for a refusal
// gives the first rule broken, in the order of the bytes. The bounds of places and of numbers say that the sums which
// make the places of fields fit a usize; each sum is a new place, so a type that held the bound would owe it anew.
#![tactic(auto)]

pub mod catalog;
pub mod classes;
pub mod columns;
pub mod fields;
pub mod rows;
