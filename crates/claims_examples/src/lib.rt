// The worked examples of the documents, computed by the definitions: see specs/ for the tables and proofs/ for the theorems.
#![tactic(auto)]
