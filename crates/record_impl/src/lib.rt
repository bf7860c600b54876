// The lines of a record, read off lent buffers; the generators of a record.
#![tactic(auto)]

pub mod checks;
pub mod expansion;
