// The values that a file names, each by a number of its own: the first place that names it. Tables of the analyses go by these numbers.
#![tactic(auto)]

pub mod keys;
pub mod numbers;
