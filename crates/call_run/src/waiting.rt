// Steps on a lent record that stands for the reduced record of its group: it is reduced only where that is wanted.
ghost use Rattle.buffers.specs.internal.Numbers.{number_of, refusal_number};
ghost use Rattle.std.specs.Prelude.{cond, ◌≡◌};
ghost use Rattle.buffers.specs.Refusals.{first_fitting};
ghost use Rattle.calls.specs.InPlace.{used_call};
ghost use Rattle.calls.specs.Sources.{renew_call};
ghost use Rattle.buffers.specs.Calls.{Call};
ghost use Rattle.operations.specs.Steps.{complement_of, cz_on, gate_with, measurement_of, pivot_of};
ghost use Rattle.operations.specs.Used.{used_lines_of, used_record};
ghost use Rattle.call_run.specs.internal.Waiting.{MeasuredStep, ObservedStep, Standing, Stepped, meant};

use buffers::refusals::Refusal;
use call_gates::complement::{complement_known, pivot_known};
use call_source::renew_known;
use jobs::Answer;
use operations::{determined_number, outcome_number};
use operations_gates::settling::normalise;
use operations_gates::unsettled::{cz_unsettled, gate_unsettled};
use operations_measurement::{contradicted, measure_unsettled};
use words::{bit_at, single};

// The first line of a step that holds, where none of the record's does.
fn argument_number(six: bool, eight: bool, sixteen: bool) -> Result<(), Refusal>
    ensures { number_of result ≡ cond six 6 (cond eight 8 (cond sixteen 16 0)) }
{
    if six {
        return Err(Refusal::Value);
    }
    if eight {
        return Err(Refusal::Qubit);
    }
    if sixteen { Err(Refusal::Used) } else { Ok(()) }
}

// A code applied after the code held at a qubit. `waiting`: the record stands for the reduced one of its group.
pub fn gate_waiting(
    n: u64,
    neighbours: &[u64],
    codes: &mut [u8],
    used: u64,
    qubit: u64,
    code: u8,
    waiting: bool,
) -> Result<(), Refusal>
    requires { Standing waiting (used_record n neighbours.now codes.old used) }
    ensures { Stepped waiting (used_record n neighbours.now codes.old used)
        (gate_with qubit code) neighbours.now codes.new (number_of result) }
{
    let sixteen = bit_at(used, qubit);
    argument_number(24 <= code, n <= qubit, sixteen)?;
    gate_unsettled(neighbours, codes, qubit as usize, code);
    Ok(())
}

// CZ on two qubits.
pub fn cz_waiting(
    n: u64,
    neighbours: &mut [u64],
    codes: &mut [u8],
    used: u64,
    a: u64,
    b: u64,
    waiting: bool,
) -> Result<(), Refusal>
    requires { Standing waiting (used_record n neighbours.old codes.old used) }
    ensures { Stepped waiting (used_record n neighbours.old codes.old used) (cz_on a b)
        neighbours.new codes.new (number_of result) }
{
    let eight = (n <= a) | ((n <= b) | (a == b));
    let sixteen = bit_at(used, a) | bit_at(used, b);
    argument_number(false, eight, sixteen)?;
    cz_unsettled(neighbours, codes, a as usize, b as usize);
    Ok(())
}

// The first line of a measurement that holds.
fn measure_number(
    n: u64,
    neighbours: &[u64],
    codes: &[u8],
    used: u64,
    pauli: u8,
    qubit: u64,
    outcome: u8,
    waiting: bool,
) -> Result<(), Refusal>
    requires { Standing waiting (used_record n neighbours.now codes.now used) }
    ensures { number_of result ≡ first_fitting (used_lines_of (meant waiting (used_record n neighbours.now
        codes.now used)) (measurement_of pauli qubit outcome)) }
{
    let six = (2 <= outcome) | ((pauli == 0) | (4 <= pauli));
    let sixteen = bit_at(used, qubit);
    argument_number(six, n <= qubit, sixteen)?;
    if contradicted(neighbours, codes, pauli, qubit as usize, outcome % 2 == 1) {
        Err(Refusal::Contradicted)
    } else {
        Ok(())
    }
}

// What a refused step answers.
pub fn refused(refusal: Refusal) -> Answer
    ensures { result ≡ record { refusal = refusal_number refusal; outcome = 0; determined = 0 } }
{
    Answer {
        refusal: refusal.number(),
        outcome: 0,
        determined: 0,
    }
}

// A Pauli measured at a qubit, which is marked as used. A refused measurement answers 0 and 0.
pub fn measure_waiting(
    n: u64,
    neighbours: &mut [u64],
    codes: &mut [u8],
    used: &mut u64,
    pauli: u8,
    qubit: u64,
    outcome: u8,
    waiting: bool,
) -> Answer
    requires { Standing waiting (used_record n neighbours.old codes.old used.old) }
    ensures { MeasuredStep waiting (used_record n neighbours.old codes.old
        used.old) pauli qubit outcome neighbours.new codes.new used.new
        result.outcome
        result.determined result.refusal }
{
    let word = *used;
    if let Err(refusal) = measure_number(
        n, neighbours, codes, word, pauli, qubit, outcome, waiting,
    ) {
        return refused(refusal);
    }
    let measured = measure_unsettled(neighbours, codes, pauli, qubit as usize, outcome % 2 == 1);
    *used = word | single(qubit as usize);
    let answered = outcome_number(measured);
    let found = determined_number(measured);
    Answer {
        refusal: 0,
        outcome: answered,
        determined: found,
    }
}

// A Pauli measured at a qubit with a bit by lot: where the state determines the outcome the bit plays no part. The qubit is
// marked as used; a refused observation answers 0 and 0.
pub fn observe_waiting(
    n: u64,
    neighbours: &mut [u64],
    codes: &mut [u8],
    used: &mut u64,
    pauli: u8,
    qubit: u64,
    bit: u8,
    waiting: bool,
) -> Answer
    requires { Standing waiting (used_record n neighbours.old codes.old used.old) }
    ensures { ObservedStep waiting (used_record n neighbours.old codes.old
        used.old) pauli qubit bit neighbours.new codes.new used.new
        result.outcome
        result.determined result.refusal }
{
    let word = *used;
    let six = (2 <= bit) | ((pauli == 0) | (4 <= pauli));
    let sixteen = bit_at(word, qubit);
    if let Err(refusal) = argument_number(six, n <= qubit, sixteen) {
        return refused(refusal);
    }
    let measured = measure_unsettled(neighbours, codes, pauli, qubit as usize, bit % 2 == 1);
    *used = word | single(qubit as usize);
    let told = outcome_number(measured);
    let known = determined_number(measured);
    Answer {
        refusal: 0,
        outcome: told,
        determined: known,
    }
}

// The record that is meant, in the buffers.
pub fn settle_waiting(n: u64, neighbours: &mut [u64], codes: &mut [u8], used: u64, waiting: bool)
    requires { Standing waiting (used_record n neighbours.old codes.old used) }
    ensures { used_record n neighbours.new codes.new used ≡ meant waiting
        (used_record n neighbours.old codes.old used) }
{
    if waiting {
        normalise(neighbours, codes);
    }
}

// The record complemented at a vertex: first it is reduced, where it waits.
pub fn complement_waiting(
    n: u64,
    neighbours: &mut [u64],
    codes: &mut [u8],
    used: u64,
    a: u64,
    waiting: bool,
) -> Result<(), Refusal>
    requires { Standing waiting (used_record n neighbours.old codes.old used) }
    ensures { Call (used_call (meant waiting (used_record n neighbours.old codes.old used))
        (complement_of a) neighbours.new codes.new) (number_of result) }
{
    settle_waiting(n, neighbours, codes, used, waiting);
    complement_known(n, neighbours, codes, used, a, true)
}

// The record pivoted on an edge: first it is reduced, where it waits.
pub fn pivot_waiting(
    n: u64,
    neighbours: &mut [u64],
    codes: &mut [u8],
    used: u64,
    j: u64,
    k: u64,
    waiting: bool,
) -> Result<(), Refusal>
    requires { Standing waiting (used_record n neighbours.old codes.old used) }
    ensures { Call (used_call (meant waiting (used_record n neighbours.old codes.old used))
        (pivot_of j k) neighbours.new codes.new) (number_of result) }
{
    settle_waiting(n, neighbours, codes, used, waiting);
    pivot_known(n, neighbours, codes, used, j, k, true)
}

// A new photon at a used qubit: first the record is reduced, where it waits.
pub fn renew_waiting(
    n: u64,
    neighbours: &mut [u64],
    codes: &mut [u8],
    used: &mut u64,
    qubit: u64,
    code: u8,
    waiting: bool,
) -> Result<(), Refusal>
    requires { Standing waiting (used_record n neighbours.old codes.old used.old) }
    ensures { Call (renew_call (meant waiting (used_record n neighbours.old codes.old
        used.old)) qubit code neighbours.new codes.new used.new) (number_of result) }
{
    let word = *used;
    settle_waiting(n, neighbours, codes, word, waiting);
    renew_known(n, neighbours, codes, used, qubit, code, true)
}
