// Named states in a store: see specs/ for its places and lines and what a save and a forget leave, and proofs/ for the laws.
#![tactic(auto)]
