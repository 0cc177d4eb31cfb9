// Checks 2 and 3, and the sections of check 4: how they follow each other, and what owners take of them.
#![tactic(auto)]

pub mod layout;
pub mod limits;
