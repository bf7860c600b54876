// The value of a Pauli row on the state of a list: see specs/ for the definition and proofs/ for what decides it.
#![tactic(auto)]
