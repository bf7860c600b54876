// Runs the steps of a lent slice on a lent record in place, and keeps what each answers as one number.
ghost use Rattle.std.specs.Prelude.{cond, [], ◌∷◌, ◌≡◌, ◌+◌, ◌<◌, ◌≤◌, length};
ghost use Rattle.call_run.specs.internal.Waiting.{meant};
ghost use Rattle.call_run.specs.internal.StepRuns.{leaves_reduced, next_waiting};
ghost use Rattle.call_run.specs.internal.LentRuns.{ReadyAt, SmallAnswer, WaitingRun};
ghost use Rattle.call_run.specs.internal.LentRuns.{marked_before, packed};
ghost use Rattle.operations.specs.Used.{used_record};

use crate::steps::run_step;
use crate::waiting::settle_waiting;
use jobs::{Answer, Op, Step};

// Whether the operation, if it is accepted, leaves a reduced record.
fn leaves_reduced(op: Op) -> bool
    ensures { result ≡ leaves_reduced op }
{
    matches!(op, Op::Gate | Op::Cz | Op::Measure | Op::Observe)
}

// Whether the record waits to be reduced after a step.
fn next_waiting(op: Op, refusal: u8, waiting: bool) -> bool
    ensures { result ≡ next_waiting op refusal waiting }
{
    if refusal == 0 {
        return leaves_reduced(op);
    }
    waiting
}

// The mark of a record that waits.
fn mark(marked: bool) -> u8
    ensures { result ≡ cond marked 128 0 }
{
    if marked { 128 } else { 0 }
}

// An answer as one number, with the mark.
fn pack(marked: bool, r: Answer) -> u8
    requires { SmallAnswer r }
    ensures { result ≡ packed marked r }
{
    let refusal = r.refusal;
    mark(marked) + (refusal * 4 + r.outcome * 2 + r.determined)
}

// Whether the answer before a place has the mark; there is none before the first.
fn marked_before(answers: &[u8], place: usize) -> bool
    requires { place ≤ length answers.now }
    ensures { result ≡ marked_before place answers.now }
{
    if place == 0 {
        return false;
    }
    128 <= answers[place - 1]
}

// One step: what it answers is kept at place at + k, and the used word after it is the result. What is kept at the place
// before it tells whether the record waits to be reduced.
pub fn turn(
    n: u64,
    neighbours: &mut [u64],
    codes: &mut [u8],
    used: u64,
    s: Step,
    at: usize,
    k: usize,
    answers: &mut [u8],
) -> u64
    requires { (at + k < length answers.old) × ReadyAt (at + k) answers.old (used_record n neighbours.old
        codes.old used) }
    ensures { WaitingRun (used_record n neighbours.old codes.old used) (s ∷ []) (at + k)
        answers.old neighbours.new codes.new result answers.new }
{
    let mut word = used;
    let place = at + k;
    let waiting = marked_before(answers, place);
    let r = run_step(n, neighbours, codes, &mut word, s, waiting);
    let op = s.op;
    let marked = next_waiting(op, r.refusal, waiting);
    answers[place] = pack(marked, r);
    word
}

// The steps of a lent slice, one after the other. What step k answers is kept at place at + k.
pub fn run_lent(
    n: u64,
    neighbours: &mut [u64],
    codes: &mut [u8],
    used: u64,
    steps: &[Step],
    at: usize,
    answers: &mut [u8],
) -> u64
    requires { (at + length steps.now ≤ length answers.old) × ReadyAt at answers.old
        (used_record n neighbours.old codes.old used) }
    ensures { WaitingRun (used_record n neighbours.old codes.old used)
        steps.now at answers.old neighbours.new codes.new result
        answers.new }
{
    let mut word = used;
    for k in 0..steps.len() {
        word = turn(n, neighbours, codes, word, steps[k], at, k, answers);
    }
    word
}

// The record that is meant after the steps, in the buffers.
pub fn settle_last(
    n: u64,
    neighbours: &mut [u64],
    codes: &mut [u8],
    used: u64,
    place: usize,
    answers: &[u8],
)
    requires { (place ≤ length answers.now) × ReadyAt place answers.now (used_record n neighbours.old
        codes.old used) }
    ensures { used_record n neighbours.new codes.new used ≡ meant (marked_before place
        answers.now) (used_record n neighbours.old codes.old used) }
{
    let waiting = marked_before(answers, place);
    settle_waiting(n, neighbours, codes, used, waiting);
}
