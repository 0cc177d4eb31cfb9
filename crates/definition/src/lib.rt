// The definition has no code: specs/ says what is right, proofs/ its theorems.
#![tactic(auto)]
