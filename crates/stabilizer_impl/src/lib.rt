// The lines of a generator list, read off lent buffers, and whether it is independent.
#![tactic(auto)]

pub mod checks;
pub mod independence;
