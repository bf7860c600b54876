// Two groups on one record: what the request says of the calls of one group.
ghost use Rattle.claims_parties.specs.Sentences.Parties.{GroupComplementSays, GroupCzSays, GroupForgetSays, GroupGateSays};
ghost use Rattle.claims_parties.specs.Sentences.Parties.{GroupMeasureSays, GroupReturnSays, GroupSaveSays};
ghost use Rattle.operations.specs.Used.{used_record};

use crate::groups::{
    sukhlent_group_complement, sukhlent_group_cz, sukhlent_group_forget, sukhlent_group_gate,
    sukhlent_group_measure, sukhlent_group_return, sukhlent_group_save,
};

pub fn group_gate_says(
    n: u64,
    word: u64,
    group: u8,
    neighbours: &mut [u64],
    codes: &mut [u8],
    used: u64,
    qubit: u64,
    code: u8,
) -> u8
    ensures { GroupGateSays word group
        (used_record n neighbours.old codes.old used)
        qubit code neighbours.new codes.new result }
{
    sukhlent_group_gate(n, word, group, neighbours, codes, used, qubit, code)
}

pub fn group_cz_says(
    n: u64,
    word: u64,
    group: u8,
    neighbours: &mut [u64],
    codes: &mut [u8],
    used: u64,
    a: u64,
    b: u64,
) -> u8
    ensures { GroupCzSays word group
        (used_record n neighbours.old codes.old used)
        a b neighbours.new codes.new result }
{
    sukhlent_group_cz(n, word, group, neighbours, codes, used, a, b)
}

pub fn group_measure_says(
    n: u64,
    word: u64,
    group: u8,
    neighbours: &mut [u64],
    codes: &mut [u8],
    used: &mut u64,
    pauli: u8,
    qubit: u64,
    outcome: u8,
    answer: &mut u8,
    determined: &mut u8,
) -> u8
    ensures { GroupMeasureSays word group
        (used_record n neighbours.old codes.old used.old)
        pauli qubit outcome answer.old determined.old
        neighbours.new codes.new used.new answer.new
        determined.new result }
{
    sukhlent_group_measure(
        n, word, group, neighbours, codes, used, pauli, qubit, outcome, answer, determined,
    )
}

pub fn group_complement_says(
    n: u64,
    word: u64,
    group: u8,
    neighbours: &mut [u64],
    codes: &mut [u8],
    used: u64,
    a: u64,
) -> u8
    ensures { GroupComplementSays word group
        (used_record n neighbours.old codes.old used)
        a neighbours.new codes.new result }
{
    sukhlent_group_complement(n, word, group, neighbours, codes, used, a)
}

pub fn group_save_says(
    n: u64,
    word: u64,
    group: u8,
    neighbours: &[u64],
    codes: &[u8],
    used: u64,
    name: u64,
    heads: &mut [u64],
    held_neighbours: &mut [u64],
    held_codes: &mut [u8],
) -> u8
    ensures { GroupSaveSays word group (used_record n neighbours.now codes.now used) name
        (record {
          heads = heads.entry.now;
          neighbours = held_neighbours.old;
          codes = held_codes.old;
        }) heads.exit.now held_neighbours.new held_codes.new result }
{
    sukhlent_group_save(
        n,
        word,
        group,
        neighbours,
        codes,
        used,
        name,
        heads,
        held_neighbours,
        held_codes,
    )
}

pub fn group_return_says(
    n: u64,
    word: u64,
    group: u8,
    neighbours: &mut [u64],
    codes: &mut [u8],
    used: &mut u64,
    name: u64,
    heads: &[u64],
    held_neighbours: &[u64],
    held_codes: &[u8],
) -> u8
    ensures { GroupReturnSays word group (used_record n neighbours.old codes.old
        used.old) name (record {
          heads = heads.entry.now;
          neighbours = held_neighbours.now;
          codes = held_codes.now;
        }) neighbours.new codes.new used.new result }
{
    sukhlent_group_return(
        n,
        word,
        group,
        neighbours,
        codes,
        used,
        name,
        heads,
        held_neighbours,
        held_codes,
    )
}

pub fn group_forget_says(
    n: u64,
    word: u64,
    group: u8,
    neighbours: &[u64],
    codes: &[u8],
    used: u64,
    name: u64,
    heads: &mut [u64],
    held_neighbours: &[u64],
    held_codes: &[u8],
) -> u8
    ensures { GroupForgetSays word group (used_record n neighbours.now codes.now used)
        name (record {
          heads = heads.entry.now;
          neighbours = held_neighbours.now;
          codes = held_codes.now;
        }) heads.exit.now result }
{
    sukhlent_group_forget(
        n,
        word,
        group,
        neighbours,
        codes,
        used,
        name,
        heads,
        held_neighbours,
        held_codes,
    )
}
