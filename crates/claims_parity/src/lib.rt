// What is claimed of the call that measures a Pauli row: see specs/ for the sentences and proofs/ for the theorems.
#![tactic(auto)]
