// The comparison of two lists, and of two records, with parts of any size, as C sees it.
ghost use Rattle.calls.specs.Equivalences.{equivalent_call, equivalent_records_call};
ghost use Rattle.buffers.specs.Calls.{Call};
ghost use Rattle.record.specs.Lent.{lent_record};

use buffers::refusals::number_of;

// The least choice that carries the group of the first list onto that of the second, and the complementations that
// turn the first reduced graph into the second.
#[unsafe(no_mangle)]
pub extern "C" fn sukhlent_equivalent(
    n1: u64,
    signs1: &[u8],
    z1: &[u64],
    x1: &[u64],
    n2: u64,
    signs2: &[u8],
    z2: &[u64],
    x2: &[u64],
    choice: &mut [u8],
    list: &mut [u8],
    count: &mut u64,
) -> u8
    ensures { Call (equivalent_call
        (record { n = n1; signs = signs1.now; z = z1.now; x = x1.now })
        (record { n = n2; signs = signs2.now; z = z2.now; x = x2.now })
        choice.old list.old count.old
        choice.new list.new count.new) result }
{
    number_of(call_compare::equivalent(n1, signs1, z1, x1, n2, signs2, z2, x2, choice, list, count))
}

// The least choice that carries the group of the first record onto that of the second, and the complementations that
// turn the first reduced graph into the second.
#[unsafe(no_mangle)]
pub extern "C" fn sukhlent_equivalent_records(
    n1: u64,
    neighbours1: &[u64],
    codes1: &[u8],
    n2: u64,
    neighbours2: &[u64],
    codes2: &[u8],
    choice: &mut [u8],
    list: &mut [u8],
    count: &mut u64,
) -> u8
    ensures { Call (equivalent_records_call
        (lent_record n1 neighbours1.now codes1.now)
        (lent_record n2 neighbours2.now codes2.now)
        choice.old list.old count.old
        choice.new list.new count.new) result }
{
    number_of(call_compare::records::equivalent_records(
        n1,
        neighbours1,
        codes1,
        n2,
        neighbours2,
        codes2,
        choice,
        list,
        count,
    ))
}
