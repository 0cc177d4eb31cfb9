// Where jumps and calls go, what a call takes along, and how a block ends: what lowering asks before it writes a line.
#![tactic(auto)]

pub mod direct;
pub mod ends;
pub mod hex;
pub mod parts;
pub mod pushes;
pub mod sets;
pub mod targets;
pub mod trim;
