// The public call that complements a lent record in place, and the pivot of job texts.
ghost use Rattle.buffers.specs.internal.Numbers.{number_of};
ghost use Rattle.buffers.specs.Calls.{Call};
ghost use Rattle.calls.specs.InPlace.{used_call};
ghost use Rattle.call_gates.specs.internal.Knowing.{Known};
ghost use Rattle.operations.specs.Steps.{complement_of, pivot_of};
ghost use Rattle.operations.specs.Used.{used_record};

use crate::in_place_refusal;
use buffers::refusals::Refusal;
use operations_rewriting::complements::complement_record;
use operations_rewriting::pivots::pivot_record;
use words::{bit_at, has};

// Local complementation at a vertex; the record is not reduced.
pub fn complement_known(
    n: u64,
    neighbours: &mut [u64],
    codes: &mut [u8],
    used: u64,
    a: u64,
    known: bool,
) -> Result<(), Refusal>
    requires { Known known (used_record n neighbours.old codes.old used) }
    ensures { Call (used_call (used_record n neighbours.old codes.old used)
        (complement_of a) neighbours.new codes.new) (number_of result) }
{
    let sixteen = bit_at(used, a);
    in_place_refusal(n, neighbours, codes, used, false, n <= a, sixteen, known)?;
    complement_record(neighbours, codes, a as usize);
    Ok(())
}

// A pivot on an edge, for the steps of jobs: it is no exported call. The record is not reduced. A used vertex has no edge,
// so that no test for 16 is needed.
pub fn pivot_known(
    n: u64,
    neighbours: &mut [u64],
    codes: &mut [u8],
    used: u64,
    j: u64,
    k: u64,
    known: bool,
) -> Result<(), Refusal>
    requires { Known known (used_record n neighbours.old codes.old used) }
    ensures { Call (used_call (used_record n neighbours.old codes.old used) (pivot_of j k)
        neighbours.new codes.new) (number_of result) }
{
    let eight = (n <= j) | ((n <= k) | (j == k));
    in_place_refusal(n, neighbours, codes, used, false, eight, false, known)?;
    if !has(neighbours[j as usize], k as usize) {
        return Err(Refusal::Qubit);
    }
    pivot_record(neighbours, codes, j as usize, k as usize);
    Ok(())
}

// The same where nothing is known of the record.
pub fn complement(
    n: u64,
    neighbours: &mut [u64],
    codes: &mut [u8],
    used: u64,
    a: u64,
) -> Result<(), Refusal>
    ensures { Call (used_call (used_record n neighbours.old codes.old used)
        (complement_of a) neighbours.new codes.new) (number_of result) }
{
    complement_known(n, neighbours, codes, used, a, false)
}
