// Many steps in one call: what the demands say of it.
ghost use Rattle.claims.specs.RunDemand.{RunSays};
ghost use Rattle.operations.specs.Used.{used_record};

use crate::run::sukhlent_run;

pub fn run_says(
    n: u64,
    neighbours: &mut [u64],
    codes: &mut [u8],
    used: &mut u64,
    ops: &[u8],
    a: &[u16],
    b: &[u16],
    value: &[u16],
    refusals: &mut [u8],
    outcomes: &mut [u8],
    determined: &mut [u8],
) -> u8
    ensures { RunSays (used_record n neighbours.old codes.old used.old) (record {
      ops = ops.entry.now;
      a = a.now;
      b = b.now;
      value = value.now;
      refusals = refusals.old;
      outcomes = outcomes.old;
      determined = determined.old;
    }) neighbours.new codes.new used.new
        refusals.new outcomes.new determined.new result }
{
    sukhlent_run(
        n, neighbours, codes, used, ops, a, b, value, refusals, outcomes, determined,
    )
}
