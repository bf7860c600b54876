// Job texts read byte by byte, their answers printed, and the text of a generated job.
#![tactic(auto)]

mod field_words;
mod fields;
pub mod generated;
pub mod printing;
pub mod scanning;
