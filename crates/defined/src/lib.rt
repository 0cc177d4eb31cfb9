// What a file defines: its values, place by place.
#![tactic(auto)]

pub mod statement;
pub mod value;
