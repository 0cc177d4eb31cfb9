// What lowering asks beside names, places and labels: which statements are saves, and which classes are really read.
#![tactic(auto)]

pub mod roots;
pub mod saves;
