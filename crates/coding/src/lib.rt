// This crate has no code: proofs/ says that the passes on rows make what those of the definition make of the lines that the rows code.
#![tactic(auto)]
