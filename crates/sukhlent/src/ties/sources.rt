// The calls of a source that goes on: what is said of each.
ghost use Rattle.claims_parties.specs.Sentences.Parties.{GroupObserveSays, GroupRenewSays};
ghost use Rattle.claims.specs.Sources.{ObserveSays, RenewSays};
ghost use Rattle.operations.specs.Used.{used_record};

use crate::sources::{
    sukhlent_group_observe, sukhlent_group_renew, sukhlent_observe, sukhlent_renew,
};

pub fn observe_says(
    n: u64,
    neighbours: &mut [u64],
    codes: &mut [u8],
    used: &mut u64,
    pauli: u8,
    qubit: u64,
    bit: u8,
    answer: &mut u8,
    determined: &mut u8,
) -> u8
    ensures { ObserveSays
        (used_record n neighbours.old codes.old used.old)
        pauli qubit bit answer.old determined.old
        neighbours.new codes.new used.new answer.new
        determined.new result }
{
    sukhlent_observe(
        n, neighbours, codes, used, pauli, qubit, bit, answer, determined,
    )
}

pub fn renew_says(
    n: u64,
    neighbours: &mut [u64],
    codes: &mut [u8],
    used: &mut u64,
    qubit: u64,
    code: u8,
) -> u8
    ensures { RenewSays
        (used_record n neighbours.old codes.old used.old)
        qubit code neighbours.new codes.new used.new result }
{
    sukhlent_renew(n, neighbours, codes, used, qubit, code)
}

pub fn group_observe_says(
    n: u64,
    word: u64,
    group: u8,
    neighbours: &mut [u64],
    codes: &mut [u8],
    used: &mut u64,
    pauli: u8,
    qubit: u64,
    bit: u8,
    answer: &mut u8,
    determined: &mut u8,
) -> u8
    ensures { GroupObserveSays word group
        (used_record n neighbours.old codes.old used.old)
        pauli qubit bit answer.old determined.old
        neighbours.new codes.new used.new answer.new
        determined.new result }
{
    sukhlent_group_observe(
        n, word, group, neighbours, codes, used, pauli, qubit, bit, answer, determined,
    )
}

pub fn group_renew_says(
    n: u64,
    word: u64,
    group: u8,
    neighbours: &mut [u64],
    codes: &mut [u8],
    used: &mut u64,
    qubit: u64,
    code: u8,
) -> u8
    ensures { GroupRenewSays word group
        (used_record n neighbours.old codes.old used.old)
        qubit code neighbours.new codes.new used.new result }
{
    sukhlent_group_renew(n, word, group, neighbours, codes, used, qubit, code)
}
