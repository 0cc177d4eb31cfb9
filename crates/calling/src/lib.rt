// The line of a Call.
#![tactic(auto)]

mod args;
pub mod call;
mod callee;
mod pushed;
mod result;
