// Complements and pivots on a record in its buffers.
#![tactic(auto)]

pub mod complements;
pub mod pivots;
