// The structuring passes on rows of numbers: no text moves while regions are formed. What each answers; specs/ says what it is to do.
#![tactic(auto)]

pub mod sweeps;
