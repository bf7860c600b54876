// The scan of a job text: a few numbers.
use crate::Op;

// The number of qubits, and the numbers of a step.
#[derive(Clone, Copy)]
pub enum Field {
    N,
    A,
    B,
    Value,
}

// What the next byte must be: byte k of the lines `qubits` and `op a b value`, byte k of an operation and the space
// after it, the first digit of a field, or a further digit or the byte that ends the field.
#[derive(Clone, Copy)]
pub enum Place {
    Head(usize),
    Word(usize),
    First(Field),
    More(Field),
    Broken,
}

// The place, n, the step and the number being read, and the number of steps read, of which at most 4,097 are counted.
#[derive(Clone, Copy)]
pub struct Scan {
    pub place: Place,
    pub n: u16,
    pub op: Op,
    pub a: u16,
    pub b: u16,
    pub number: u16,
    pub count: usize,
}
