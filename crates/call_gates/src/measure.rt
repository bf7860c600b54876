// The public call that measures a Pauli on a lent record in place.
ghost use Rattle.buffers.specs.internal.Numbers.{number_of};
ghost use Rattle.std.specs.Prelude.{◌≡◌};
ghost use Rattle.buffers.specs.Calls.{Call};
ghost use Rattle.buffers.specs.Refusals.{first_fitting};
ghost use Rattle.calls.specs.InPlace.{used_measure_call};
ghost use Rattle.call_gates.specs.internal.Knowing.{Known};
ghost use Rattle.operations.specs.Steps.{measurement_of};
ghost use Rattle.operations.specs.Used.{used_arguments_of, used_lines_of, used_record};

use crate::in_place_refusal;
use buffers::refusals::Refusal;
use operations::{determined_number, outcome_number};
use operations_measurement::{contradicted, measure_record};
use words::{bit_at, single};

// The first line of a measurement's arguments that holds.
pub fn argument_refusal(
    n: u64,
    neighbours: &[u64],
    codes: &[u8],
    used: u64,
    pauli: u8,
    qubit: u64,
    outcome: u8,
    known: bool,
) -> Result<(), Refusal>
    requires { Known known (used_record n neighbours.now codes.now used) }
    ensures { number_of result ≡ first_fitting (used_arguments_of (used_record n neighbours.now codes.now
        used) (measurement_of pauli qubit outcome)) }
{
    let six = (2 <= outcome) | ((pauli == 0) | (4 <= pauli));
    let sixteen = bit_at(used, qubit);
    in_place_refusal(n, neighbours, codes, used, six, n <= qubit, sixteen, known)
}

// The first line of a measurement that holds: those of its arguments, and 14 where a determined outcome
// contradicts the supplied bit.
fn measure_refusal(
    n: u64,
    neighbours: &[u64],
    codes: &[u8],
    used: u64,
    pauli: u8,
    qubit: u64,
    outcome: u8,
    known: bool,
) -> Result<(), Refusal>
    requires { Known known (used_record n neighbours.now codes.now used) }
    ensures { number_of result ≡ first_fitting (used_lines_of (used_record n neighbours.now codes.now used)
        (measurement_of pauli qubit outcome)) }
{
    argument_refusal(n, neighbours, codes, used, pauli, qubit, outcome, known)?;
    if contradicted(neighbours, codes, pauli, qubit as usize, outcome % 2 == 1) {
        Err(Refusal::Contradicted)
    } else {
        Ok(())
    }
}

// A Pauli measured at a qubit: the outcome, whether it was determined, the reduced record, and the qubit marked as used.
pub fn measure_known(
    n: u64,
    neighbours: &mut [u64],
    codes: &mut [u8],
    used: &mut u64,
    pauli: u8,
    qubit: u64,
    outcome: u8,
    answer: &mut u8,
    determined: &mut u8,
    known: bool,
) -> Result<(), Refusal>
    requires { Known known (used_record n neighbours.old codes.old used.old) }
    ensures { Call (used_measure_call (used_record n neighbours.old codes.old
        used.old) pauli qubit outcome answer.old determined.old
        neighbours.new codes.new used.new answer.new
        determined.new) (number_of result) }
{
    let word = *used;
    measure_refusal(n, neighbours, codes, word, pauli, qubit, outcome, known)?;
    let measured = measure_record(neighbours, codes, pauli, qubit as usize, outcome % 2 == 1);
    *answer = outcome_number(measured);
    *determined = determined_number(measured);
    *used = word | single(qubit as usize);
    Ok(())
}

// The same where nothing is known of the record.
pub fn measure(
    n: u64,
    neighbours: &mut [u64],
    codes: &mut [u8],
    used: &mut u64,
    pauli: u8,
    qubit: u64,
    outcome: u8,
    answer: &mut u8,
    determined: &mut u8,
) -> Result<(), Refusal>
    ensures { Call (used_measure_call (used_record n neighbours.old codes.old
        used.old) pauli qubit outcome answer.old determined.old
        neighbours.new codes.new used.new answer.new
        determined.new) (number_of result) }
{
    measure_known(
        n, neighbours, codes, used, pauli, qubit, outcome, answer, determined, false,
    )
}
