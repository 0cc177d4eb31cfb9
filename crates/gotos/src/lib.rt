// A block's label, the goto that closes a block, and jumps that test nothing: to a block, computed, and out of the function.
#![tactic(auto)]

pub mod closing;
pub mod goto;
pub mod jump;
pub mod label;
mod named;
pub mod tail;
