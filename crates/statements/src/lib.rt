// The statements of a function file as a type: a record around one of seven kinds, read from the lent bytes when it is needed.
// Total: what is outside the file reads 0.
#![tactic(auto)]

mod items;
pub mod statement;
