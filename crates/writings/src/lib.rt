// Every well-formed state has a writing, reached by calls or not: what that says (specs/) and the theorem (proofs/), no code.
#![tactic(auto)]
