// The comparisons of a condition: where they stand, and their signs flipped.
#![tactic(auto)]

pub mod looks;
pub mod signs;
