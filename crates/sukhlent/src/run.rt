// Many steps in one call, as C sees it.
ghost use Rattle.calls.specs.Runs.{run_call};
ghost use Rattle.buffers.specs.Calls.{Call};
ghost use Rattle.operations.specs.Used.{used_record};

use buffers::refusals::number_of;

// Steps on a record in place, one after the other, and what each answers.
#[unsafe(no_mangle)]
pub extern "C" fn sukhlent_run(
    n: u64,
    neighbours: &mut [u64],
    codes: &mut [u8],
    used: &mut u64,
    ops: &[u8],
    a: &[u16],
    b: &[u16],
    value: &[u16],
    refusals: &mut [u8],
    outcomes: &mut [u8],
    determined: &mut [u8],
) -> u8
    ensures { Call (run_call (used_record n neighbours.old codes.old used.old)
        (record {
          ops = ops.entry.now;
          a = a.now;
          b = b.now;
          value = value.now;
          refusals = refusals.old;
          outcomes = outcomes.old;
          determined = determined.old;
        }) neighbours.new codes.new used.new
        refusals.new outcomes.new determined.new) result }
{
    number_of(call_run::run(
        n, neighbours, codes, used, ops, a, b, value, refusals, outcomes, determined,
    ))
}
