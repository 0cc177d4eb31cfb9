// What a branch tests: which statement set the flags, and which comparison the condition code makes of it.
#![tactic(auto)]

pub mod codes;
pub mod comparison;
pub mod same;
pub mod setter;
pub mod shown;
mod spans;
