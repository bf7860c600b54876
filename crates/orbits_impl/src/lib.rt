// The search of an orbit: graphs as numbers, marks, and the list that is written.
#![tactic(auto)]

pub mod marks;
pub mod numbers;
mod search;
mod writing;
