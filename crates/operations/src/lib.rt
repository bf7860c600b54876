// Gates, CZ, measurements, complements and pivots on groups and on records: what they are, and laws.
// Gates, CZ and measurements as steps on a graph and its codes: see specs/ for the steps, and proofs/ for what they do
// to the group. The code stands in operations_gates, operations_gates and operations_measurement.
// Records with a word of used qubits: see specs/ for the lines and what a call leaves, and proofs/ for the laws.
#![tactic(auto)]

ghost use Rattle.std.specs.Prelude.{◌≡◌};
ghost use Rattle.operations.specs.Measurement.{determined_number, outcome_number};

use buffers::sign_digit;

// What a measurement answers, with the sign of its outcome: found in the group, or chosen by the bit.
#[derive(Clone, Copy)]
pub enum Outcome {
    Determined(bool),
    Chosen(bool),
}

// The outcome's number, 1 for minus.
pub fn outcome_number(measured: Outcome) -> u8
    ensures { result ≡ outcome_number measured }
{
    match measured {
        Outcome::Determined(minus) => sign_digit(minus),
        Outcome::Chosen(minus) => sign_digit(minus),
    }
}

// 1 where the outcome was determined, else 0.
pub fn determined_number(measured: Outcome) -> u8
    ensures { result ≡ determined_number measured }
{
    match measured {
        Outcome::Determined(_) => 1,
        Outcome::Chosen(_) => 0,
    }
}
