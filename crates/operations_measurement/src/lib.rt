// Measurements on a record in its buffers.
#![tactic(auto)]

mod isolation;
mod parting;
mod undetermined;

ghost use Rattle.std.specs.Prelude.{cond, ◌≡◌, ◌<◌, ◌≤◌, length};
ghost use Rattle.operations.specs.internal.KeptGroups.{GroupHeld, GroupMeasured};
ghost use Rattle.operations.specs.internal.InPlace.{MeasuredInPlace, Unrefused, record_in};
ghost use Rattle.operations.specs.Measurement.{
  contradicts,
  is_determined,
  measured_outcome,
  measured_rows,
  pauli_letter,
};
ghost use Rattle.operations.specs.internal.Steps.{ReadOff};
ghost use Rattle.operations.specs.declared.Outcome.TheVariants.{Chosen, Determined};
ghost use Rattle.pauli.specs.declared.Letter.TheVariants.{I};
ghost use Rattle.record.specs.Lent.{held_rows};

use crate::undetermined::measure_open;
use clifford_impl::codes::Code;
use operations::Outcome;
use operations_gates::settling::normalise;
use pauli::Letter;

// The letter that a Pauli's number names: 1 X, 2 Y, 3 Z.
pub fn letter_named(pauli: u8) -> Letter
    requires { (1 ≤ pauli) × (pauli ≤ 3) }
    ensures { result ≡ pauli_letter pauli }
{
    match pauli {
        1 => Letter::X,
        2 => Letter::Y,
        _ => Letter::Z,
    }
}

// What is read off the record before a measurement: whether it is determined, and then the outcome's sign.
#[derive(Clone, Copy)]
pub struct Reading {
    pub determined: bool,
    pub minus: bool,
}

// A Pauli is determined where its qubit has no neighbours and the code there sends X to it.
pub fn read_off(neighbours: &[u64], codes: &[u8], pauli: u8, q: usize) -> Reading
    requires unrefused { Unrefused (record_in neighbours.now codes.now) × (q < length neighbours.now) }
    requires le_pauli { (1 ≤ pauli) × (pauli ≤ 3) }
    ensures { ReadOff (record_in neighbours.now codes.now) pauli q
        result.determined result.minus }
{
    let own = Code { index: codes[q] }.image(Letter::X);
    Reading {
        determined: (neighbours[q] == 0) & (own.letter == letter_named(pauli)),
        minus: own.minus,
    }
}

// Whether a determined outcome contradicts the supplied bit.
pub fn contradicted(neighbours: &[u64], codes: &[u8], pauli: u8, q: usize, bit: bool) -> bool
    requires unrefused { Unrefused (record_in neighbours.now codes.now) × (q < length neighbours.now) }
    requires le_pauli { (1 ≤ pauli) × (pauli ≤ 3) }
    ensures { result ≡ contradicts (length neighbours.now)
        (held_rows (record_in neighbours.now codes.now)) (pauli_letter pauli) q bit }
{
    let known = read_off(neighbours, codes, pauli, q);
    known.determined & (known.minus != bit)
}

// The group after a measurement of l at q: the same where it is determined.
fn measure_group(
    neighbours: &mut [u64],
    codes: &mut [u8],
    l: Letter,
    q: usize,
    bit: bool,
    determined: bool,
)
    requires unrefused { Unrefused (record_in neighbours.old codes.old) × (q < length neighbours.old) }
    requires determined_value { determined
        ≡ is_determined (length neighbours.old) (held_rows (record_in neighbours.old codes.old)) l q }
    requires fact { l ≡ I → ⊥ }
    ensures { GroupMeasured neighbours.old codes.old l q bit
        neighbours.new codes.new }
{
    if determined {
        return;
    }
    measure_open(neighbours, codes, l, q, bit);
}

// What is answered: the sign that was read off where the measurement is determined, else the bit.
fn outcome_of(known: Reading, bit: bool) -> Outcome
    ensures { result ≡ cond known.determined (Determined known.minus) (Chosen bit) }
{
    let sign = known.minus;
    if known.determined {
        return Outcome::Determined(sign);
    }
    Outcome::Chosen(bit)
}

// Measures a Pauli at q, and leaves a record of the group afterwards.
pub fn measure_unsettled(
    neighbours: &mut [u64],
    codes: &mut [u8],
    pauli: u8,
    q: usize,
    bit: bool,
) -> Outcome
    requires unrefused { Unrefused (record_in neighbours.old codes.old) × (q < length neighbours.old) }
    requires le_pauli { (1 ≤ pauli) × (pauli ≤ 3) }
    ensures group_held { GroupHeld (length neighbours.old)
        (measured_rows (length neighbours.old) (held_rows (record_in neighbours.old codes.old))
        (pauli_letter pauli) q bit) neighbours.new codes.new }
    ensures value { result ≡ measured_outcome (length neighbours.old)
        (held_rows (record_in neighbours.old codes.old)) (pauli_letter pauli) q bit }
{
    let known = read_off(neighbours, codes, pauli, q);
    measure_group(
        neighbours,
        codes,
        letter_named(pauli),
        q,
        bit,
        known.determined,
    );
    outcome_of(known, bit)
}

// Measures a Pauli at q, and leaves the reduced record of the group afterwards.
pub fn measure_record(
    neighbours: &mut [u64],
    codes: &mut [u8],
    pauli: u8,
    q: usize,
    bit: bool,
) -> Outcome
    requires unrefused { Unrefused (record_in neighbours.old codes.old) × (q < length neighbours.old) }
    requires le_pauli { (1 ≤ pauli) × (pauli ≤ 3) }
    ensures { MeasuredInPlace neighbours.old codes.old pauli q bit result
        neighbours.new codes.new }
{
    let known = read_off(neighbours, codes, pauli, q);
    measure_group(
        neighbours,
        codes,
        letter_named(pauli),
        q,
        bit,
        known.determined,
    );
    normalise(neighbours, codes);
    outcome_of(known, bit)
}
