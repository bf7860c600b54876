// The vertices of one party taken out and put back; the lines of a party and of its places in a store.
#![tactic(auto)]

pub mod checks;
pub mod masks;
pub mod places;
pub mod records;
