// The public calls on two generator lists.
#![tactic(auto)]

pub mod records;

ghost use Rattle.buffers.specs.internal.Numbers.{number_of};
ghost use Rattle.std.specs.Prelude.{◌||◌, not, ◌≡◌, ◌≤◌, eqb, length};
ghost use Rattle.buffers.specs.Calls.{Call};
ghost use Rattle.buffers.specs.Refusals.{bad_count};
ghost use Rattle.calls.specs.Comparisons.{compare_call};
ghost use Rattle.calls.specs.Equivalences.{equivalent_call};
ghost use Rattle.calls.specs.internal.Limited.{comparing_call};

use buffers::earliest::earlier_refusal;
use buffers::refusals::Refusal;
use buffers::{bad_count, other_than};
use call_lists::reduce;
use comparison_parts::answer::compare_reduced;

// Line 2: n is 0 or above 64, or the two n differ.
pub fn pair_count(n: u64, n2: u64) -> bool
    ensures { result ≡ (bad_count n || (bad_count n2 || not (eqb n n2))) }
{
    bad_count(n) | (bad_count(n2) | (n != n2))
}

// The comparison of two lists on n qubits, with room for their reduced records.
fn compare_lists(
    limited: bool,
    n: u64,
    signs1: &[u8],
    z1: &[u64],
    x1: &[u64],
    signs2: &[u8],
    z2: &[u64],
    x2: &[u64],
    neighbours1: &mut [u64],
    codes1: &mut [u8],
    neighbours2: &mut [u64],
    codes2: &mut [u8],
    choice: &mut [u8],
    list: &mut [u8],
    count: &mut u64,
) -> Result<(), Refusal>
    requires le_n { (1 ≤ n) × (n ≤ 64) × (length choice.old ≡ n) × (length list.old ≡ 96) }
    requires neighbours1_len { (length neighbours1.old ≡ n) × (length codes1.old ≡ n) × (length neighbours2.old ≡ n)
        × (length codes2.old ≡ n) }
    ensures { Call (comparing_call limited
        (record { n = n; signs = signs1.now; z = z1.now; x = x1.now })
        (record { n = n; signs = signs2.now; z = z2.now; x = x2.now })
        choice.old list.old count.old
        choice.new list.new count.new) (number_of result) }
{
    let first = reduce(n, signs1, z1, x1, neighbours1, codes1);
    let second = reduce(n, signs2, z2, x2, neighbours2, codes2);
    earlier_refusal(first, second)?;
    compare_reduced(
        limited,
        n as usize,
        neighbours1,
        codes1,
        neighbours2,
        codes2,
        choice,
        list,
        count,
    )
}

// The least choice that carries the group of the first list onto that of the second, and the complementations that
// turn the first reduced graph into the second; with a limit for the parts or without one.
fn compare_by(
    limited: bool,
    n1: u64,
    signs1: &[u8],
    z1: &[u64],
    x1: &[u64],
    n2: u64,
    signs2: &[u8],
    z2: &[u64],
    x2: &[u64],
    choice: &mut [u8],
    list: &mut [u8],
    count: &mut u64,
) -> Result<(), Refusal>
    ensures { Call (comparing_call limited
        (record { n = n1; signs = signs1.now; z = z1.now; x = x1.now })
        (record { n = n2; signs = signs2.now; z = z2.now; x = x2.now })
        choice.old list.old count.old
        choice.new list.new count.new) (number_of result) }
{
    if pair_count(n1, n2) {
        return Err(Refusal::Count);
    }
    if other_than(choice.len(), n1) | other_than(list.len(), 96) {
        return Err(Refusal::Length);
    }
    let n = n1 as usize;
    let mut neighbours1 = [0u64; 64];
    let mut codes1 = [0u8; 64];
    let mut neighbours2 = [0u64; 64];
    let mut codes2 = [0u8; 64];
    compare_lists(
        limited,
        n1,
        signs1,
        z1,
        x1,
        signs2,
        z2,
        x2,
        &mut neighbours1[..n],
        &mut codes1[..n],
        &mut neighbours2[..n],
        &mut codes2[..n],
        choice,
        list,
        count,
    )
}

// The comparison with the limit.
pub fn compare(
    n1: u64,
    signs1: &[u8],
    z1: &[u64],
    x1: &[u64],
    n2: u64,
    signs2: &[u8],
    z2: &[u64],
    x2: &[u64],
    choice: &mut [u8],
    list: &mut [u8],
    count: &mut u64,
) -> Result<(), Refusal>
    ensures { Call (compare_call
        (record { n = n1; signs = signs1.now; z = z1.now; x = x1.now })
        (record { n = n2; signs = signs2.now; z = z2.now; x = x2.now })
        choice.old list.old count.old
        choice.new list.new count.new) (number_of result) }
{
    compare_by(
        true, n1, signs1, z1, x1, n2, signs2, z2, x2, choice, list, count,
    )
}

// The comparison of parts of any size.
pub fn equivalent(
    n1: u64,
    signs1: &[u8],
    z1: &[u64],
    x1: &[u64],
    n2: u64,
    signs2: &[u8],
    z2: &[u64],
    x2: &[u64],
    choice: &mut [u8],
    list: &mut [u8],
    count: &mut u64,
) -> Result<(), Refusal>
    ensures { Call (equivalent_call
        (record { n = n1; signs = signs1.now; z = z1.now; x = x1.now })
        (record { n = n2; signs = signs2.now; z = z2.now; x = x2.now })
        choice.old list.old count.old
        choice.new list.new count.new) (number_of result) }
{
    compare_by(
        false, n1, signs1, z1, x1, n2, signs2, z2, x2, choice, list, count,
    )
}
