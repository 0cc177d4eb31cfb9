// Check 6: bits, registers, args, block starts, names, definitions and call targets.
#![tactic(auto)]

pub mod distinct;
pub mod meaning;
pub mod registers_named;
