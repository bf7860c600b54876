// Two parties on one record: see specs/ for a party's vertices alone, the lines and the stores of a party, and proofs/
// for the laws.
#![tactic(auto)]
