// The words of a file's contents and records, read from the lent bytes when they are needed. Total: what is outside reads 0.
#![tactic(auto)]

pub mod contents;
pub mod edition;
pub mod kinds;
pub mod owners;
