// Answers the text of a job that was scanned: runs its steps, and prints what each answers and the record after the
// last; or a refusal.
ghost use Rattle.std.specs.Prelude.{List, ◌++◌, ◌≡◌, ℕ, ◌≤◌, length};
ghost use Rattle.buffers.specs.Writing.{Printed};
ghost use Rattle.jobs.specs.Answer.{JobResponse, run_text};
ghost use Rattle.jobs.specs.Results.{result_lines, result_names};
ghost use Rattle.jobs.specs.internal.Scan.{as_reading, empty, fed};
ghost use Rattle.call_run.specs.internal.LentRuns.{LentRun};
ghost use Rattle.operations.specs.Used.{used_record, UsedUnrefused};
ghost use Rattle.jobs_replies.specs.internal.Room.{Fresh, result_in};
ghost use Rattle.jobs_replies.specs.Room.{lines_room, longest_job};

use call_run::lent::{run_lent, settle_last};
use jobs::Step;
use jobs_impl::printing::{print_result, print_result_names};
use jobs_impl::scanning::{Reading, judge};
use text_impl::printing::{print_record, print_refusal};

// Prints the names, and the line of each step by what it answered.
fn print_results(count: usize, answers: &[u8], out: &mut [u8]) -> usize
    requires { (count ≤ 4096) × (count ≤ length answers.now) × (lines_room ≤ length out.old) }
    ensures { Printed (result_names ++ result_lines count (result_in answers.now)) 0
        out.old out.new result }
{
    let mut at = print_result_names(0, out);
    for (k, &p) in answers[..count].iter().enumerate() {
        at = print_result(k as u16, p / 4 % 32, p / 2 % 2, p % 2, at, out);
    }
    at
}

// The steps, lent to the runner, on a record that no line refuses. What step k answers is kept at place k, and the used
// word after the last is the result.
fn run(n: u64, neighbours: &mut [u64], codes: &mut [u8], steps: &[Step], answers: &mut [u8]) -> u64
    requires { (length steps.now ≤ length answers.old) × UsedUnrefused (used_record n neighbours.old
        codes.old 0) }
    ensures { LentRun (used_record n neighbours.old codes.old 0) steps.now 0
        answers.old neighbours.new codes.new result
        answers.new }
{
    let used = run_lent(n, neighbours, codes, 0, steps, 0, answers);
    settle_last(n, neighbours, codes, used, steps.len(), answers);
    used
}

// Runs the steps of a job, and prints its answer.
fn print_run(
    n: usize,
    neighbours: &mut [u64],
    codes: &mut [u8],
    steps: &[Step],
    answers: &mut [u8],
    out: &mut [u8],
) -> usize
    requires { Fresh n neighbours.old codes.old (length steps.now) answers.old out.old }
    ensures { Printed (run_text n steps.now) 0 out.old out.new result }
{
    let used = run(n as u64, neighbours, codes, steps, answers);
    let at = print_results(steps.len(), answers, out);
    print_record(n, neighbours, codes, used, at, out)
}

// Prints the answer to a job of these steps.
fn job_answer(n: usize, steps: &[Step], out: &mut [u8]) -> usize
    requires { (1 ≤ n) × (n ≤ 64) × (length steps.now ≤ 4096) × (longest_job ≤ length out.old) }
    ensures { Printed (run_text n steps.now) 0 out.old out.new result }
{
    let mut neighbours = [0u64; 64];
    let mut codes = [8u8; 64];
    let mut answers = [0u8; 4096];
    print_run(
        n,
        &mut neighbours[..n],
        &mut codes[..n],
        steps,
        &mut answers,
        out,
    )
}

// Prints the answer to the text that was read, whatever text it was.
pub fn job_reply(read: Reading, out: &mut [u8]) -> usize
    requires { longest_job ≤ length out.old }
    ensures { (t : List ℕ) → as_reading read.scan read.steps ≡ fed empty t
        → JobResponse t out.old out.new result }
{
    let scan = read.scan;
    match judge(scan) {
        Ok(()) => job_answer(scan.n as usize, &read.steps[..scan.count], out),
        Err(refusal) => print_refusal(refusal, out),
    }
}
