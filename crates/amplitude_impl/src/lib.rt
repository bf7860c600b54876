// Amplitudes on words: the support and its turns, the smallest word, the lines of a plot.
#![tactic(auto)]

pub mod answer;
mod lines;
pub mod lowest;
mod turns;
