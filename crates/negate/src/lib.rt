// The heads and ends of regions.
#![tactic(auto)]

pub mod heads;
pub mod negation;
