// The public calls on generator lists: check, reduce.
#![tactic(auto)]

pub mod product;
pub mod strings;

ghost use Rattle.buffers.specs.internal.Numbers.{number_of};
ghost use Rattle.buffers.specs.Calls.{Call};
ghost use Rattle.calls.specs.Lists.{check_call, reduce_unused_call};
ghost use Rattle.calls.specs.internal.Reductions.{reduce_call};

use buffers::other_than;
use buffers::refusals::Refusal;
use record_reduction::reduce_list;
use stabilizer_impl::checks::early_refusal;
use stabilizer_impl::independence::independent;

// Lines 2, 4, 5, 6, 9 and 10 of a generator list.
pub fn check(n: u64, signs: &[u8], z: &[u64], x: &[u64]) -> Result<(), Refusal>
    ensures { Call (check_call
        (record { n = n; signs = signs.now; z = z.now; x = x.now })) (number_of result) }
{
    early_refusal(n, signs, z, x, false)?;
    if !independent(n as usize, z, x) {
        return Err(Refusal::Dependent);
    }
    Ok(())
}

// The reduced record of a generator list.
pub fn reduce(
    n: u64,
    signs: &[u8],
    z: &[u64],
    x: &[u64],
    neighbours: &mut [u64],
    codes: &mut [u8],
) -> Result<(), Refusal>
    ensures { Call (reduce_call
        (record { n = n; signs = signs.now; z = z.now; x = x.now })
        neighbours.old codes.old neighbours.new codes.new) (number_of result) }
{
    let others = other_than(neighbours.len(), n) | other_than(codes.len(), n);
    early_refusal(n, signs, z, x, others)?;
    let count = n as usize;
    if reduce_list(count, signs, z, x, neighbours, codes) {
        Ok(())
    } else {
        Err(Refusal::Dependent)
    }
}

// The same, with the used word of the record: no qubit is used.
pub fn reduce_unused(
    n: u64,
    signs: &[u8],
    z: &[u64],
    x: &[u64],
    neighbours: &mut [u64],
    codes: &mut [u8],
    used: &mut u64,
) -> Result<(), Refusal>
    ensures { Call (reduce_unused_call
        (record { n = n; signs = signs.now; z = z.now; x = x.now })
        neighbours.old codes.old used.old
        neighbours.new codes.new used.new) (number_of result) }
{
    reduce(n, signs, z, x, neighbours, codes)?;
    *used = 0;
    Ok(())
}
