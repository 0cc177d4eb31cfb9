// The records of a function file as types: phis, blocks and expression nodes, read from the lent bytes when they are needed.
// Total: what is outside the file reads 0.
#![tactic(auto)]

pub mod block;
pub mod node;
pub mod parts;
