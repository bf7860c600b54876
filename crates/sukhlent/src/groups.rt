// Two groups on one record, as C sees them: the calls of one group, on its own vertices and its own four named states.
ghost use Rattle.calls.specs.PartyStores.{party_forget_call, party_return_call, party_save_call};
ghost use Rattle.calls.specs.Parties.{party_call, party_measure_call};
ghost use Rattle.buffers.specs.Calls.{Call};
ghost use Rattle.operations.specs.Steps.{complement_of, cz_on, gate_with};
ghost use Rattle.operations.specs.Used.{used_record};

use buffers::refusals::number_of;

// A group's gate: the group's vertices reduced, the others as they were.
#[unsafe(no_mangle)]
pub extern "C" fn sukhlent_group_gate(
    n: u64,
    word: u64,
    group: u8,
    neighbours: &mut [u64],
    codes: &mut [u8],
    used: u64,
    qubit: u64,
    code: u8,
) -> u8
    ensures { Call (party_call word group
        (used_record n neighbours.old codes.old used)
        (gate_with qubit code) neighbours.new codes.new) result }
{
    number_of(call_parties::gate(n, word, group, neighbours, codes, used, qubit, code))
}

// A group's CZ: the group's vertices reduced, the others as they were.
#[unsafe(no_mangle)]
pub extern "C" fn sukhlent_group_cz(
    n: u64,
    word: u64,
    group: u8,
    neighbours: &mut [u64],
    codes: &mut [u8],
    used: u64,
    a: u64,
    b: u64,
) -> u8
    ensures { Call (party_call word group
        (used_record n neighbours.old codes.old used)
        (cz_on a b) neighbours.new codes.new) result }
{
    number_of(call_parties::cz(n, word, group, neighbours, codes, used, a, b))
}

// A Pauli measured at a group's qubit: the outcome, whether it was determined, and the group's vertices reduced.
#[unsafe(no_mangle)]
pub extern "C" fn sukhlent_group_measure(
    n: u64,
    word: u64,
    group: u8,
    neighbours: &mut [u64],
    codes: &mut [u8],
    used: &mut u64,
    pauli: u8,
    qubit: u64,
    outcome: u8,
    answer: &mut u8,
    determined: &mut u8,
) -> u8
    ensures { Call (party_measure_call word group
        (used_record n neighbours.old codes.old used.old)
        pauli qubit outcome answer.old determined.old
        neighbours.new codes.new used.new answer.new
        determined.new) result }
{
    number_of(call_parties::measure(
        n, word, group, neighbours, codes, used, pauli, qubit, outcome, answer, determined,
    ))
}

// A group's local complementation; nothing is reduced.
#[unsafe(no_mangle)]
pub extern "C" fn sukhlent_group_complement(
    n: u64,
    word: u64,
    group: u8,
    neighbours: &mut [u64],
    codes: &mut [u8],
    used: u64,
    a: u64,
) -> u8
    ensures { Call (party_call word group
        (used_record n neighbours.old codes.old used)
        (complement_of a) neighbours.new codes.new) result }
{
    number_of(call_parties::complement(n, word, group, neighbours, codes, used, a))
}

// The group's vertices saved under the name, at one of its four places.
#[unsafe(no_mangle)]
pub extern "C" fn sukhlent_group_save(
    n: u64,
    word: u64,
    group: u8,
    neighbours: &[u64],
    codes: &[u8],
    used: u64,
    name: u64,
    heads: &mut [u64],
    held_neighbours: &mut [u64],
    held_codes: &mut [u8],
) -> u8
    ensures { Call (party_save_call word group (used_record n neighbours.now codes.now used)
        name (record {
          heads = heads.entry.now;
          neighbours = held_neighbours.old;
          codes = held_codes.old;
        }) heads.exit.now held_neighbours.new held_codes.new) result }
{
    number_of(call_parties::stores::save(
        n,
        word,
        group,
        neighbours,
        codes,
        used,
        name,
        heads,
        held_neighbours,
        held_codes,
    ))
}

// The group's vertices as they are held under the name; the others as they were.
#[unsafe(no_mangle)]
pub extern "C" fn sukhlent_group_return(
    n: u64,
    word: u64,
    group: u8,
    neighbours: &mut [u64],
    codes: &mut [u8],
    used: &mut u64,
    name: u64,
    heads: &[u64],
    held_neighbours: &[u64],
    held_codes: &[u8],
) -> u8
    ensures { Call (party_return_call word group (used_record n neighbours.old codes.old
        used.old) name (record {
          heads = heads.entry.now;
          neighbours = held_neighbours.now;
          codes = held_codes.now;
        }) neighbours.new codes.new used.new) result }
{
    number_of(call_parties::stores::return_to(
        n,
        word,
        group,
        neighbours,
        codes,
        used,
        name,
        heads,
        held_neighbours,
        held_codes,
    ))
}

// The place of the name among the group's four made free.
#[unsafe(no_mangle)]
pub extern "C" fn sukhlent_group_forget(
    n: u64,
    word: u64,
    group: u8,
    neighbours: &[u64],
    codes: &[u8],
    used: u64,
    name: u64,
    heads: &mut [u64],
    held_neighbours: &[u64],
    held_codes: &[u8],
) -> u8
    ensures { Call (party_forget_call word group (used_record n neighbours.now codes.now
        used) name (record {
          heads = heads.entry.now;
          neighbours = held_neighbours.now;
          codes = held_codes.now;
        }) heads.exit.now) result }
{
    number_of(call_parties::stores::forget(
        n,
        word,
        group,
        neighbours,
        codes,
        used,
        name,
        heads,
        held_neighbours,
        held_codes,
    ))
}
