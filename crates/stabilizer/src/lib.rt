// Generator lists and their groups, row operations, and the lines of a list: see specs/ and proofs/.
#![tactic(auto)]
