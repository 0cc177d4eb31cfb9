// The lines of the statements that neither call nor jump.
#![tactic(auto)]

pub mod assign;
pub mod other;
mod parts;
pub mod returns;
mod sets;
pub mod store;
