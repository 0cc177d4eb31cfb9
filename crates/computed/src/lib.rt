// The longer files of the vectors, computed in the definition: no code. They stand apart from it, so that a change of the definition is checked sooner.
#![tactic(auto)]
