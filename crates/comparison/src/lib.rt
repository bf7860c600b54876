// The comparison of two states: definitions and laws. The code that they speak of stands in the crates above.
// The connected parts of a graph, and groups over them: see specs/ for the definitions and proofs/ for the laws.
#![tactic(auto)]
