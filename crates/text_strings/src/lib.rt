// Texts of Pauli strings judged, read and written.
#![tactic(auto)]

pub mod form;
pub mod printing;
pub mod scanning;
