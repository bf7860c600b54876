// Runs steps that lie in parallel slices of numbers. A block of them at a time becomes structs, which are lent to the
// runner.
ghost use Rattle.std.specs.Prelude.{◌≡◌, ◌+◌, ◌≤◌, drop, length, take};
ghost use Rattle.jobs.specs.Parallel.{step_in, steps_in};
ghost use Rattle.jobs.specs.internal.Parallel.{OneLength};
ghost use Rattle.call_run.specs.internal.LentRuns.{LentRun};
ghost use Rattle.operations.specs.Used.{used_record, UsedUnrefused};

use crate::lent::{run_lent, settle_last};
use jobs::{Op, Step, op_of};

// Step k of the slices.
fn step_at(ops: &[u8], a: &[u16], b: &[u16], value: &[u16], k: usize) -> Step
    requires { (k + 1 ≤ length ops.now) × OneLength ops.now a.now b.now value.now }
    ensures { result ≡ step_in ops.now a.now b.now value.now k }
{
    let op = op_of(ops[k]);
    Step {
        op,
        a: a[k],
        b: b[k],
        value: value[k],
    }
}

// The steps from a place on, at most 64.
fn block_at(
    ops: &[u8],
    a: &[u16],
    b: &[u16],
    value: &[u16],
    from: usize,
    count: usize,
) -> [Step; 64]
    requires { (count ≤ 64) × (from + count ≤ length ops.now)
        × OneLength ops.now a.now b.now value.now }
    ensures { take count result ≡ take count (drop from
        (steps_in ops.now a.now b.now value.now)) }
{
    let none = Step {
        op: Op::Gate,
        a: 0,
        b: 0,
        value: 0,
    };
    let mut steps = [none; 64];
    for k in 0..count {
        let s = step_at(ops, a, b, value, from + k);
        steps[k] = s;
    }
    steps
}

// The first steps of the slices, on a record in place that no line refuses. A step leaves such a record, and none looks at
// its lines again. What step k answers is kept at place k, and the used word after the last is the result.
pub fn run_numbers(
    n: u64,
    neighbours: &mut [u64],
    codes: &mut [u8],
    used: u64,
    count: usize,
    ops: &[u8],
    a: &[u16],
    b: &[u16],
    value: &[u16],
    answers: &mut [u8],
) -> u64
    requires { (count ≤ length ops.now) × (count ≤ length answers.old)
        × OneLength ops.now a.now b.now value.now × UsedUnrefused (used_record n neighbours.old codes.old used) }
    ensures { LentRun (used_record n neighbours.old codes.old used)
        (take count (steps_in ops.now a.now b.now value.now)) 0
        answers.old neighbours.new codes.new result answers.new }
{
    let mut word = used;
    let mut k = 0;
    // No range or chunks: four slices go along by blocks, as far as `count`, and k is the place of the answers too.
    while k < count {
        let m = (count - k).min(64);
        let block = block_at(ops, a, b, value, k, m);
        word = run_lent(n, neighbours, codes, word, &block[..m], k, answers);
        k += m;
    }
    settle_last(n, neighbours, codes, word, count, answers);
    word
}
