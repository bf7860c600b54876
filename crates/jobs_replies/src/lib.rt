// What the programs amplitudes and job answer: the table or the steps printed.
#![tactic(auto)]

pub mod answers;
pub mod plots;
mod tables;
#[cfg(test)]
mod tests;
