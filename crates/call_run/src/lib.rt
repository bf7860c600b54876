// The public call that runs many steps on a lent record in place.
#![tactic(auto)]

mod checks;
pub mod lent;
mod numbers;
mod steps;
mod waiting;

ghost use Rattle.buffers.specs.internal.Numbers.{number_of};
ghost use Rattle.buffers.specs.Calls.{Call};
ghost use Rattle.calls.specs.Runs.{run_call};
ghost use Rattle.operations.specs.Used.{used_record};

use crate::checks::{one_other_than, run_refusal, unpack};
use crate::numbers::run_numbers;
use buffers::refusals::Refusal;

// Steps on a record in place, one after the other: the record is looked at once, and what each step answers is written.
pub fn run(
    n: u64,
    neighbours: &mut [u64],
    codes: &mut [u8],
    used: &mut u64,
    ops: &[u8],
    a: &[u16],
    b: &[u16],
    value: &[u16],
    refusals: &mut [u8],
    outcomes: &mut [u8],
    determined: &mut [u8],
) -> Result<(), Refusal>
    ensures { Call (run_call (used_record n neighbours.old codes.old used.old)
        (record {
          ops = ops.now;
          a = a.now;
          b = b.now;
          value = value.now;
          refusals = refusals.old;
          outcomes = outcomes.old;
          determined = determined.old;
        }) neighbours.new codes.new used.new
        refusals.new outcomes.new determined.new) (number_of result) }
{
    let count = ops.len();
    let asked = one_other_than(count, a.len(), b.len(), value.len());
    let answered = one_other_than(count, refusals.len(), outcomes.len(), determined.len());
    let word = *used;
    run_refusal(n, neighbours, codes, word, ops, asked | answered)?;
    let next = run_numbers(
        n, neighbours, codes, word, count, ops, a, b, value, refusals,
    );
    *used = next;
    unpack(refusals, outcomes, determined);
    Ok(())
}
