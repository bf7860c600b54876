// Orbits of graphs on few vertices under local complementation: see specs/ for the definitions and proofs/ for the laws.
#![tactic(auto)]

// Two vertices, the smaller first.
#[derive(Clone, Copy)]
pub struct Pair {
    pub low: usize,
    pub high: usize,
}
