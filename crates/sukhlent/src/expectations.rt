// The value of a Pauli row, as C sees it.
ghost use Rattle.calls.specs.Expectations.{expectation_call};
ghost use Rattle.buffers.specs.Calls.{Call};
ghost use Rattle.operations.specs.Used.{used_record};

use buffers::refusals::number_of;

// 0 where the row is in the record's group, 1 where its negative is, 2 where neither is.
#[unsafe(no_mangle)]
pub extern "C" fn sukhlent_expectation(
    n: u64,
    neighbours: &[u64],
    codes: &[u8],
    used: u64,
    z: u64,
    x: u64,
    value: &mut u8,
) -> u8
    ensures { Call (expectation_call
        (used_record n neighbours.now codes.now used) z x
        value.old value.new) result }
{
    number_of(call_readings::expectations::expectation(n, neighbours, codes, used, z, x, value))
}
