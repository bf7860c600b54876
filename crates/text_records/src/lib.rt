// Texts of records judged and read.
#![tactic(auto)]

pub mod lines;
pub mod reading;
