// The public call that expands a record.
ghost use Rattle.buffers.specs.internal.Numbers.{number_of};
ghost use Rattle.buffers.specs.Calls.{Call};
ghost use Rattle.calls.specs.Expansions.{expand_call};
ghost use Rattle.operations.specs.Used.{used_record};

use buffers::other_than;
use buffers::refusals::Refusal;
use operations_checks::used_refusal;
use record_impl::expansion::expand_into;

// The generators of a record, in order.
pub fn expand(
    n: u64,
    neighbours: &[u64],
    codes: &[u8],
    used: u64,
    signs: &mut [u8],
    z: &mut [u64],
    x: &mut [u64],
) -> Result<(), Refusal>
    ensures { Call (expand_call (used_record n neighbours.now codes.now used)
        signs.old z.old x.old
        signs.new z.new x.new) (number_of result) }
{
    let others = other_than(signs.len(), n) | (other_than(z.len(), n) | other_than(x.len(), n));
    used_refusal(n, neighbours, codes, used, 0, others, false)?;
    let count = n as usize;
    expand_into(count, neighbours, codes, signs, z, x);
    Ok(())
}
