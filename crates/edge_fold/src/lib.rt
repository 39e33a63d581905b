// The edges of a join, and one edge's part in the figures and the coverages: what
// join_selectivity_from_conjuncts_with_config of the source's analysis.rs does in its loop.
#![tactic(auto)]

pub mod coverages;
pub mod edges;
pub mod fold;
mod sides;
