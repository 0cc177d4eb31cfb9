// The condition of a jump, found in the buffers, and tokens copied as they are.
#![tactic(auto)]

pub mod clip;
pub mod copies;
