// The demands as theorems: see specs/ for the statements and proofs/ for the proofs.
// What the documents say of many steps in one call, and the theorems: see specs/ and proofs/.
// What is claimed of the comparison of two records: see specs/ for the statements and proofs/ for the proofs.
// What is claimed of the comparison of parts of any size: see specs/ for the statements and proofs/ for the proofs.
// What is claimed of the calls of a source that goes on: see specs/Sources.antt.
#![tactic(auto)]
