// Which Use nodes each statement reads, from left to right, and which expressions hold a load.
#![tactic(auto)]

pub mod loads;
pub mod order;
