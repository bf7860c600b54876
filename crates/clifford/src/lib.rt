// The 24 local Cliffords: see specs/ for what they are, and proofs/ for their laws. The code stands in clifford_impl and
// clifford_impl.
#![tactic(auto)]
