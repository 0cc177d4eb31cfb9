// Expressions and values as tokens in the room, and the kinds of tokens.
#![tactic(auto)]

pub mod code;
pub mod expr;
mod form;
pub mod kinds;
mod leaves;
mod operators;
pub mod source;
