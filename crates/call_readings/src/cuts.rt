// The public call on a cut of a record's vertices into two sides.
ghost use Rattle.buffers.specs.internal.Numbers.{number_of};
ghost use Rattle.buffers.specs.Calls.{Call};
ghost use Rattle.calls.specs.Cuts.{cut_call};
ghost use Rattle.operations.specs.Used.{used_record};

use buffers::refusals::Refusal;
use cut_impl::cut_rank;
use operations_checks::used_refusal;

// The rank of the edges between the marked side and the other.
pub fn cut(
    n: u64,
    neighbours: &[u64],
    codes: &[u8],
    used: u64,
    side: u64,
    rank: &mut u64,
) -> Result<(), Refusal>
    ensures { Call (cut_call (used_record n neighbours.now codes.now used) side
        rank.old rank.new) (number_of result) }
{
    used_refusal(n, neighbours, codes, used, side, false, false)?;
    *rank = cut_rank(n as usize, neighbours, side) as u64;
    Ok(())
}
