// What figures look up in a sheet whose sections' places are known: an expression, an operand, the
// profile of a column, the rows of a side, a setting. Each is given for every number, as its definition is.
#![tactic(auto)]

pub mod numbers;
pub mod places;
pub mod profiles;
pub mod settings;
