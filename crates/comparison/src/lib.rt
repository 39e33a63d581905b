// Selectivities of comparisons and of tests for null: what a predicate has at its leaves.
#![tactic(auto)]

pub mod binary;
pub mod columns;
pub mod literal;
pub mod unary;
