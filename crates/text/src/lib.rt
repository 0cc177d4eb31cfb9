// The writers of names: those that the file supplies, those of globals and those of registers.
#![tactic(auto)]

pub mod names;
pub mod registers;
