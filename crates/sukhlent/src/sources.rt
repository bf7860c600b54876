// The calls of a source that goes on, as C sees them: a measurement with a bit by lot, and a new photon at a used place, of a
// record and of a group.
ghost use Rattle.calls.specs.Sources.{party_observe_call, party_renew_call, observe_call, renew_call};
ghost use Rattle.buffers.specs.Calls.{Call};
ghost use Rattle.operations.specs.Used.{used_record};

use buffers::refusals::number_of;

// A Pauli measured at a qubit, with a bit by lot: the outcome, whether it was determined, and the reduced record.
#[unsafe(no_mangle)]
pub extern "C" fn sukhlent_observe(
    n: u64,
    neighbours: &mut [u64],
    codes: &mut [u8],
    used: &mut u64,
    pauli: u8,
    qubit: u64,
    bit: u8,
    answer: &mut u8,
    determined: &mut u8,
) -> u8
    ensures { Call (observe_call
        (used_record n neighbours.old codes.old used.old)
        pauli qubit bit answer.old determined.old
        neighbours.new codes.new used.new answer.new
        determined.new) result }
{
    number_of(call_source::observe(
        n, neighbours, codes, used, pauli, qubit, bit, answer, determined,
    ))
}

// A new photon at a used qubit.
#[unsafe(no_mangle)]
pub extern "C" fn sukhlent_renew(
    n: u64,
    neighbours: &mut [u64],
    codes: &mut [u8],
    used: &mut u64,
    qubit: u64,
    code: u8,
) -> u8
    ensures { Call (renew_call
        (used_record n neighbours.old codes.old used.old)
        qubit code neighbours.new codes.new used.new) result }
{
    number_of(call_source::renew(n, neighbours, codes, used, qubit, code))
}

// A Pauli measured at a qubit of a group, with a bit by lot.
#[unsafe(no_mangle)]
pub extern "C" fn sukhlent_group_observe(
    n: u64,
    word: u64,
    group: u8,
    neighbours: &mut [u64],
    codes: &mut [u8],
    used: &mut u64,
    pauli: u8,
    qubit: u64,
    bit: u8,
    answer: &mut u8,
    determined: &mut u8,
) -> u8
    ensures { Call (party_observe_call word group
        (used_record n neighbours.old codes.old used.old)
        pauli qubit bit answer.old determined.old
        neighbours.new codes.new used.new answer.new
        determined.new) result }
{
    number_of(call_parties::source_calls::observe(
        n, word, group, neighbours, codes, used, pauli, qubit, bit, answer, determined,
    ))
}

// A new photon at a used qubit of a group.
#[unsafe(no_mangle)]
pub extern "C" fn sukhlent_group_renew(
    n: u64,
    word: u64,
    group: u8,
    neighbours: &mut [u64],
    codes: &mut [u8],
    used: &mut u64,
    qubit: u64,
    code: u8,
) -> u8
    ensures { Call (party_renew_call word group
        (used_record n neighbours.old codes.old used.old)
        qubit code neighbours.new codes.new used.new) result }
{
    number_of(call_parties::source_calls::renew(
        n, word, group, neighbours, codes, used, qubit, code,
    ))
}
