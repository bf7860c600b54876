// Two parties on one record, as theorems over runs of their calls: see specs/ for the statements and proofs/ for the proofs.
#![tactic(auto)]
