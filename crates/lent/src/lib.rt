// What the caller lends and is answered: lengths, zeros, the numbers of a listing.
#![tactic(auto)]

pub mod answer;
pub mod clearing;
pub mod lengths;
