// The image rule on words, the image graph, its signs and the list of moves.
#![tactic(auto)]

pub mod answer;
mod complementing;
mod image_loop;
