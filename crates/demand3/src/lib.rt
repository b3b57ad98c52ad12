// Demand 3 of CAR's public calls, from their contracts alone: runs of them (specs/) and theorems (proofs/), no code. Apart from `car_core` so that both check quickly.
#![tactic(auto)]
