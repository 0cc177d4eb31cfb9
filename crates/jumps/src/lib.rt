// The lines of a Branch.
#![tactic(auto)]

pub mod branch;
pub mod conditional;
mod targets;
