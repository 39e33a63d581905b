// EquivalenceClassState of the source's analysis.rs.
#![tactic(auto)]

use estimate::Estimate;
use layout::COLUMN_LIMIT;

mod apart;
pub mod members;
pub mod profiles;
pub mod returned;
pub mod slots;
pub mod unions;

// Of each column the column at its root, and of each root its class's distinct: two arrays, since
// columns share a root, and arrays, since there is no heap. That every root is a column is asked by the
// functions that need it: as a fact of the type it would be asked of all who build a state.
#[derive(Clone, Copy)]
pub struct EquivalenceClassState {
    pub roots: [u8; COLUMN_LIMIT],
    pub distincts: [Estimate; COLUMN_LIMIT],
}
