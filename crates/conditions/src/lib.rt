// The condition that a branch tests, as tokens.
#![tactic(auto)]

mod assigned;
pub mod condition;
pub mod operands;
mod side;
