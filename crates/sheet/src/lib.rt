// Lowered lines, read off the room's buffers.
#![tactic(auto)]

pub mod lines;
pub mod ranges;
pub mod tokens;
