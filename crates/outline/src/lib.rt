// The outline of a sheet, a number for each line: a row's parts, where labels are aimed at, and what forming does to rows.
#![tactic(auto)]

pub mod forming;
pub mod rows;
pub mod spans;
