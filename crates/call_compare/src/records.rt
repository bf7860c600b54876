// The public calls that compare two records: copies of both are reduced, and these are compared.
ghost use Rattle.buffers.specs.internal.Numbers.{number_of};
ghost use Rattle.std.specs.Prelude.{◌≡◌, length};
ghost use Rattle.comparison.specs.internal.ComparedPairs.{HoldsReduced, PairAnswered};
ghost use Rattle.buffers.specs.Calls.{Call};
ghost use Rattle.operations.specs.internal.InPlace.{Unrefused, record_in};
ghost use Rattle.record.specs.Lent.{held_rows, lent_record};
ghost use Rattle.calls.specs.Equivalences.{equivalent_records_call};
ghost use Rattle.calls.specs.RecordComparisons.{compare_records_call};
ghost use Rattle.calls.specs.internal.Limited.{comparing_records_call};

use crate::pair_count;
use buffers::copies::copy_record;
use buffers::earliest::earlier_refusal;
use buffers::other_than;
use buffers::refusals::Refusal;
use comparison_parts::answer::compare_reduced;
use operations_gates::settling::normalise;
use record_impl::checks::record_refusal;

// Copies a record into two buffers and reduces it there.
fn reduce_copy(neighbours: &[u64], codes: &[u8], words: &mut [u64], bytes: &mut [u8])
    requires unrefused { Unrefused (record_in neighbours.now codes.now) }
    requires words_len { (length words.old ≡ length neighbours.now) × (length bytes.old ≡ length neighbours.now) }
    ensures { HoldsReduced (length neighbours.now)
        (held_rows (record_in neighbours.now codes.now))
        words.new bytes.new }
{
    copy_record(neighbours, codes, words, bytes);
    normalise(words, bytes);
}

// The comparison of two records on n qubits, with room for their reduced copies.
fn compare_copies(
    limited: bool,
    n: usize,
    neighbours1: &[u64],
    codes1: &[u8],
    neighbours2: &[u64],
    codes2: &[u8],
    words1: &mut [u64],
    bytes1: &mut [u8],
    words2: &mut [u64],
    bytes2: &mut [u8],
    choice: &mut [u8],
    list: &mut [u8],
    count: &mut u64,
) -> Result<(), Refusal>
    requires unrefused { Unrefused (lent_record n neighbours1.now codes1.now) }
    requires unrefused_2 { Unrefused (lent_record n neighbours2.now codes2.now) }
    requires words1_len { (length words1.old ≡ n) × (length bytes1.old ≡ n) × (length words2.old ≡ n)
        × (length bytes2.old ≡ n) × (length choice.old ≡ n) × (length list.old ≡ 96) }
    ensures { PairAnswered limited n
        (held_rows (lent_record n neighbours1.now codes1.now))
        (held_rows (lent_record n neighbours2.now codes2.now))
        choice.old list.old count.old (number_of result)
        choice.new list.new count.new }
{
    reduce_copy(neighbours1, codes1, words1, bytes1);
    reduce_copy(neighbours2, codes2, words2, bytes2);
    compare_reduced(
        limited, n, words1, bytes1, words2, bytes2, choice, list, count,
    )
}

// The least choice that carries the group of the first record onto that of the second, and the complementations that
// turn the first reduced graph into the second; with a limit for the parts or without one.
fn compare_records_by(
    limited: bool,
    n1: u64,
    neighbours1: &[u64],
    codes1: &[u8],
    n2: u64,
    neighbours2: &[u64],
    codes2: &[u8],
    choice: &mut [u8],
    list: &mut [u8],
    count: &mut u64,
) -> Result<(), Refusal>
    ensures { Call (comparing_records_call limited
        (lent_record n1 neighbours1.now codes1.now)
        (lent_record n2 neighbours2.now codes2.now)
        choice.old list.old count.old
        choice.new list.new count.new) (number_of result) }
{
    if pair_count(n1, n2) {
        return Err(Refusal::Count);
    }
    let others = other_than(choice.len(), n1) | other_than(list.len(), 96);
    let first = record_refusal(n1, neighbours1, codes1, others, false);
    let second = record_refusal(n2, neighbours2, codes2, false, false);
    earlier_refusal(first, second)?;
    let n = n1 as usize;
    let mut words1 = [0u64; 64];
    let mut bytes1 = [0u8; 64];
    let mut words2 = [0u64; 64];
    let mut bytes2 = [0u8; 64];
    compare_copies(
        limited,
        n,
        neighbours1,
        codes1,
        neighbours2,
        codes2,
        &mut words1[..n],
        &mut bytes1[..n],
        &mut words2[..n],
        &mut bytes2[..n],
        choice,
        list,
        count,
    )
}

// The comparison with the limit.
pub fn compare_records(
    n1: u64,
    neighbours1: &[u64],
    codes1: &[u8],
    n2: u64,
    neighbours2: &[u64],
    codes2: &[u8],
    choice: &mut [u8],
    list: &mut [u8],
    count: &mut u64,
) -> Result<(), Refusal>
    ensures { Call (compare_records_call
        (lent_record n1 neighbours1.now codes1.now)
        (lent_record n2 neighbours2.now codes2.now)
        choice.old list.old count.old
        choice.new list.new count.new) (number_of result) }
{
    compare_records_by(
        true,
        n1,
        neighbours1,
        codes1,
        n2,
        neighbours2,
        codes2,
        choice,
        list,
        count,
    )
}

// The comparison of parts of any size.
pub fn equivalent_records(
    n1: u64,
    neighbours1: &[u64],
    codes1: &[u8],
    n2: u64,
    neighbours2: &[u64],
    codes2: &[u8],
    choice: &mut [u8],
    list: &mut [u8],
    count: &mut u64,
) -> Result<(), Refusal>
    ensures { Call (equivalent_records_call
        (lent_record n1 neighbours1.now codes1.now)
        (lent_record n2 neighbours2.now codes2.now)
        choice.old list.old count.old
        choice.new list.new count.new) (number_of result) }
{
    compare_records_by(
        false,
        n1,
        neighbours1,
        codes1,
        n2,
        neighbours2,
        codes2,
        choice,
        list,
        count,
    )
}
