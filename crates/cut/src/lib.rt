// The rank of the edges across a cut: see specs/ for the definitions and proofs/ for what keeps it.
#![tactic(auto)]
