// What the lowering of every kind of statement shares: what it knows, lists of expressions, and a line's end.
#![tactic(auto)]

pub mod line;
pub mod list;
