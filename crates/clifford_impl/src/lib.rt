// Codes of the 24 local Cliffords composed, undone, and their images; rows sent through them, on words.
#![tactic(auto)]

pub mod codes;
mod compositions;
pub mod numbers;
pub mod rows;
mod tables;
