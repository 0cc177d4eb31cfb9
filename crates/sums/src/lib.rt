// Offsets of addresses: a value's, or its sum with a constant, and whether such a sum is outside 64 bits.
#![tactic(auto)]

pub mod address;
pub mod numbered;
pub mod outside;
pub mod reading;
mod sums;
