// The places of a store: found by their names, written and read, and their lines.
#![tactic(auto)]

pub mod checks;
pub mod copies;
pub mod places;
