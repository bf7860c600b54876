// The public calls of a party on a source that goes on: its measurement with a bit by lot, on a copy in which the other
// party's vertices stand alone in +Z, and its new photon at a used qubit.
ghost use Rattle.buffers.specs.internal.Numbers.{number_of};
ghost use Rattle.buffers.specs.Calls.{Call};
ghost use Rattle.calls.specs.Sources.{party_observe_call, party_renew_call};
ghost use Rattle.operations.specs.Used.{used_record};

use crate::measured_within;
use buffers::refusals::Refusal;
use call_source::{no_photon, observe_known, renew_known};
use parties_impl::records::{outside, party_refusal};

// A Pauli measured at a qubit of the party with a bit by lot: the outcome, whether it was determined, the party's
// vertices reduced, and the qubit marked as used.
pub fn observe(
    n: u64,
    word: u64,
    party: u8,
    neighbours: &mut [u64],
    codes: &mut [u8],
    used: &mut u64,
    pauli: u8,
    qubit: u64,
    bit: u8,
    answer: &mut u8,
    determined: &mut u8,
) -> Result<(), Refusal>
    ensures { Call (party_observe_call word party (used_record n neighbours.old codes.old
        used.old) pauli qubit bit answer.old determined.old
        neighbours.new codes.new used.new answer.new
        determined.new) (number_of result) }
{
    let other = outside(n, word, party, qubit);
    let six = (2 <= bit) | ((pauli == 0) | (4 <= pauli));
    let whole = *used;
    party_refusal(n, word, party, neighbours, codes, whole, six, other)?;
    measured_within(
        n,
        word,
        party,
        neighbours,
        codes,
        used,
        answer,
        determined,
        |words, bytes, own, answer, determined| {
            observe_known(
                n, words, bytes, own, pauli, qubit, bit, answer, determined, true,
            )
        },
    )
}

// A new photon at a used qubit of the party.
pub fn renew(
    n: u64,
    word: u64,
    party: u8,
    neighbours: &mut [u64],
    codes: &mut [u8],
    used: &mut u64,
    qubit: u64,
    code: u8,
) -> Result<(), Refusal>
    ensures { Call (party_renew_call word party (used_record n neighbours.old codes.old
        used.old) qubit code neighbours.new codes.new used.new) (number_of result) }
{
    let other = outside(n, word, party, qubit);
    let six = no_photon(code);
    let whole = *used;
    party_refusal(n, word, party, neighbours, codes, whole, six, other)?;
    renew_known(n, neighbours, codes, used, qubit, code, true)
}
