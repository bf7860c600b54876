// Measurements of Pauli rows of any weight: see specs/ for which are determined, the outcome, the group afterwards and the
// lines of the call, and proofs/ for the laws.
#![tactic(auto)]
