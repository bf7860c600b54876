// The public call on the value of a Pauli row in a record's group.
ghost use Rattle.buffers.specs.internal.Numbers.{number_of};
ghost use Rattle.buffers.specs.Calls.{Call};
ghost use Rattle.calls.specs.Expectations.{expectation_call};
ghost use Rattle.operations.specs.Used.{used_record};

use buffers::refusals::Refusal;
use expectation_impl::{row_value, value_number};
use operations_checks::used_refusal;

// 0 where the row is in the record's group, 1 where its negative is, 2 where neither is.
pub fn expectation(
    n: u64,
    neighbours: &[u64],
    codes: &[u8],
    used: u64,
    z: u64,
    x: u64,
    value: &mut u8,
) -> Result<(), Refusal>
    ensures { Call (expectation_call (used_record n neighbours.now codes.now used) z x
        value.old value.new) (number_of result) }
{
    used_refusal(n, neighbours, codes, used, z | x, false, false)?;
    *value = value_number(row_value(n as usize, neighbours, codes, z, x));
    Ok(())
}
