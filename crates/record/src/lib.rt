// Graphs as neighbour words, and graph records: reduced records, and why they depend on the group alone; the lines of a
// record: see specs/ and proofs/.
#![tactic(auto)]

pub mod graph;
