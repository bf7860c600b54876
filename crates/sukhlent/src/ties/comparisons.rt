// The comparison of two lists, and of two records: what the demands say of them.
ghost use Rattle.claims.specs.Sentences.Comparisons.{CompareSays};
ghost use Rattle.claims.specs.RecordPairs.{CompareRecordsSays};
ghost use Rattle.record.specs.Lent.{lent_record};

use crate::comparisons::{sukhlent_compare, sukhlent_compare_records};

pub fn compare_says(
    n1: u64,
    signs1: &[u8],
    z1: &[u64],
    x1: &[u64],
    n2: u64,
    signs2: &[u8],
    z2: &[u64],
    x2: &[u64],
    choice: &mut [u8],
    list: &mut [u8],
    count: &mut u64,
) -> u8
    ensures { CompareSays
        (record { n = n1; signs = signs1.now; z = z1.now; x = x1.now })
        (record { n = n2; signs = signs2.now; z = z2.now; x = x2.now })
        choice.old list.old count.old
        choice.new list.new count.new result }
{
    sukhlent_compare(n1, signs1, z1, x1, n2, signs2, z2, x2, choice, list, count)
}

pub fn compare_records_says(
    n1: u64,
    neighbours1: &[u64],
    codes1: &[u8],
    n2: u64,
    neighbours2: &[u64],
    codes2: &[u8],
    choice: &mut [u8],
    list: &mut [u8],
    count: &mut u64,
) -> u8
    ensures { CompareRecordsSays
        (lent_record n1 neighbours1.now codes1.now)
        (lent_record n2 neighbours2.now codes2.now)
        choice.old list.old count.old
        choice.new list.new count.new result }
{
    sukhlent_compare_records(
        n1,
        neighbours1,
        codes1,
        n2,
        neighbours2,
        codes2,
        choice,
        list,
        count,
    )
}
