// The four parts of an area together, and the state that they read as: definitions (specs/) and laws (proofs/), no code.
#![tactic(auto)]
