// The text of a generator list read byte by byte, in blocks of any size; records and refusals printed.
#![tactic(auto)]

pub mod blocks;
pub mod printing;
pub mod scanning;
