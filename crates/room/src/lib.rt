// What lowering writes: a token for each piece as it comes, and lines as they end. A room that is full stays so.
#![tactic(auto)]

pub mod line;
pub mod out;
pub mod place;
