// The public call that measures a Pauli row of any weight.
#![tactic(auto)]

ghost use Rattle.buffers.specs.internal.Numbers.{number_of};
ghost use Rattle.buffers.specs.Calls.{Call};
ghost use Rattle.calls.specs.Parities.{measure_row_call};
ghost use Rattle.operations.specs.Used.{used_record};

use buffers::refusals::Refusal;
use operations::{determined_number, outcome_number};
use operations_checks::used_refusal;
use parity_impl::measure_row_record;

// The row of two words measured, sign plus, with a bit by lot: the outcome is the bit only where the state does not
// determine it. The reduced record; no qubit is used up.
pub fn measure_row(
    n: u64,
    neighbours: &mut [u64],
    codes: &mut [u8],
    used: u64,
    z: u64,
    x: u64,
    bit: u8,
    answer: &mut u8,
    determined: &mut u8,
) -> Result<(), Refusal>
    ensures { Call (measure_row_call (used_record n neighbours.old codes.old used) z x bit
        answer.old determined.old
        neighbours.new codes.new answer.new determined.new) (number_of result) }
{
    let row = z | x;
    used_refusal(n, neighbours, codes, used, row, false, 2 <= bit)?;
    if used & row != 0 {
        return Err(Refusal::Used);
    }
    let measured = measure_row_record(neighbours, codes, z, x, bit % 2 == 1);
    *answer = outcome_number(measured);
    *determined = determined_number(measured);
    Ok(())
}
