// Pieces into the room: what each spells, and one writer for all of them, which is lent only the unwritten rest of the text.
#![tactic(auto)]

pub mod from_file;
pub mod fronted;
pub mod piece;
pub mod put;
