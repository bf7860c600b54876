// The text of a generator list, the texts that answer it, and the scan of a text: see specs/ and proofs/.
// The texts of Pauli strings and of records: see specs/ for the definitions and proofs/ for the laws.
#![tactic(auto)]

pub mod records;
pub mod scan;
