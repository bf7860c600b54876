// The public calls of a source that goes on: a measurement with a bit by lot, and a new photon at a used place.
#![tactic(auto)]

ghost use Rattle.buffers.specs.internal.Numbers.{number_of};
ghost use Rattle.std.specs.Prelude.{not, ◌≡◌};
ghost use Rattle.buffers.specs.Calls.{Call};
ghost use Rattle.calls.specs.Sources.{observe_call, renew_call};
ghost use Rattle.call_gates.specs.internal.Knowing.{Known};
ghost use Rattle.operations.specs.Used.{used_code, used_record};

use buffers::refusals::Refusal;
use call_gates::known_refusal;
use call_gates::measure::argument_refusal;
use operations::{determined_number, outcome_number};
use operations_measurement::measure_record;
use words::{bit_at, flip, single};

// A Pauli measured at a qubit, with a bit by lot: the outcome is the bit only where the state does not determine it. The
// reduced record, and the qubit marked as used. `known`: no line of the record alone holds.
pub fn observe_known(
    n: u64,
    neighbours: &mut [u64],
    codes: &mut [u8],
    used: &mut u64,
    pauli: u8,
    qubit: u64,
    bit: u8,
    answer: &mut u8,
    determined: &mut u8,
    known: bool,
) -> Result<(), Refusal>
    requires { Known known (used_record n neighbours.old codes.old used.old) }
    ensures { Call (observe_call (used_record n neighbours.old codes.old
        used.old) pauli qubit bit answer.old determined.old
        neighbours.new codes.new used.new answer.new
        determined.new) (number_of result) }
{
    let word = *used;
    argument_refusal(n, neighbours, codes, word, pauli, qubit, bit, known)?;
    let measured = measure_record(neighbours, codes, pauli, qubit as usize, bit % 2 == 1);
    *answer = outcome_number(measured);
    *determined = determined_number(measured);
    *used = word | single(qubit as usize);
    Ok(())
}

// The same where nothing is known of the record.
pub fn observe(
    n: u64,
    neighbours: &mut [u64],
    codes: &mut [u8],
    used: &mut u64,
    pauli: u8,
    qubit: u64,
    bit: u8,
    answer: &mut u8,
    determined: &mut u8,
) -> Result<(), Refusal>
    ensures { Call (observe_call (used_record n neighbours.old codes.old
        used.old) pauli qubit bit answer.old determined.old
        neighbours.new codes.new used.new answer.new
        determined.new) (number_of result) }
{
    observe_known(
        n, neighbours, codes, used, pauli, qubit, bit, answer, determined, false,
    )
}

// Whether a code is none of a photon's: 0, 2, 4, 6, 8 and 10.
pub fn no_photon(code: u8) -> bool
    ensures { result ≡ not (used_code code) }
{
    !((code < 12) & (code % 2 != 1))
}

// A new photon at a used qubit: its code, and the qubit's mark taken away.
pub fn renew_known(
    n: u64,
    neighbours: &mut [u64],
    codes: &mut [u8],
    used: &mut u64,
    qubit: u64,
    code: u8,
    known: bool,
) -> Result<(), Refusal>
    requires { Known known (used_record n neighbours.old codes.old used.old) }
    ensures { Call (renew_call (used_record n neighbours.old codes.old used.old)
        qubit code neighbours.new codes.new used.new) (number_of result) }
{
    let word = *used;
    known_refusal(n, neighbours, codes, word, no_photon(code), known)?;
    if n <= qubit {
        return Err(Refusal::Qubit);
    }
    if !bit_at(word, qubit) {
        return Err(Refusal::NotUsed);
    }
    codes[qubit as usize] = code;
    *used = flip(word, qubit as usize);
    Ok(())
}

// The same where nothing is known of the record.
pub fn renew(
    n: u64,
    neighbours: &mut [u64],
    codes: &mut [u8],
    used: &mut u64,
    qubit: u64,
    code: u8,
) -> Result<(), Refusal>
    ensures { Call (renew_call (used_record n neighbours.old codes.old used.old)
        qubit code neighbours.new codes.new used.new) (number_of result) }
{
    renew_known(n, neighbours, codes, used, qubit, code, false)
}
