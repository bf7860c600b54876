// Reads the text of a job in blocks of any size. A scan is a few numbers; the first 4,096 steps are kept together
// beside it, each with its operation, qubits and value.
ghost use Rattle.std.specs.Prelude.{◌≡◌};
ghost use Rattle.buffers.specs.internal.Numbers.{number_of};
ghost use Rattle.jobs.specs.internal.Scan.{as_reading, at_line, begin, empty, fed, head_step, scan_byte, step_of};
ghost use Rattle.jobs.specs.internal.Scan.{verdict};

use crate::field_words::word_step;
use crate::fields::{first_step, more_step};
use buffers::refusals::Refusal;
use jobs::scan::{Field, Place, Scan};
use jobs::{Op, Step};

// A scan, and the first 4,096 steps that it has read.
#[derive(Drop)]
pub struct Reading {
    pub scan: Scan,
    pub steps: [Step; 4096],
}

// The bytes of the head that are the same in every job.
const HEAD: [u8; 20] = *b"qubits\nop a b value\n";

// At byte k of the head.
#[tactic(auto, unfolding(jobs::specs::internal::Scan::head_step))]
fn head_step(k: usize, b: u8) -> Place
    ensures { result ≡ head_step k b }
{
    if 20 <= k {
        return Place::Broken;
    }
    if b != HEAD[k] {
        return Place::Broken;
    }
    if k == 6 {
        return Place::First(Field::N);
    }
    if k == 19 {
        return Place::Word(0);
    }
    Place::Head(k + 1)
}

// The scan after one more byte.
#[tactic(auto, unfolding(jobs::specs::internal::Scan::scan_byte))]
fn scan_byte(s: Scan, b: u8) -> Scan
    ensures { result ≡ scan_byte s b }
{
    match s.place {
        Place::Head(k) => Scan {
            place: head_step(k, b),
            ..s
        },
        Place::Word(k) => word_step(k, s, b),
        Place::First(f) => first_step(f, s, b),
        Place::More(f) => more_step(f, s, b),
        Place::Broken => s,
    }
}

// The scan of the empty text.
#[tactic(auto, unfolding(jobs::specs::internal::Scan::begin))]
fn start() -> Scan
    ensures { result ≡ begin }
{
    Scan {
        place: Place::Head(0),
        n: 0,
        op: Op::Gate,
        a: 0,
        b: 0,
        number: 0,
        count: 0,
    }
}

// Nothing is read.
pub fn unread() -> Reading
    ensures { as_reading result.scan result.steps ≡ empty }
{
    let none = Step {
        op: Op::Gate,
        a: 0,
        b: 0,
        value: 0,
    };
    Reading {
        scan: start(),
        steps: [none; 4096],
    }
}

// The step that the scan holds.
fn step_of(s: Scan) -> Step
    ensures { result ≡ step_of s }
{
    Step {
        op: s.op,
        a: s.a,
        b: s.b,
        value: s.number,
    }
}

// What is read after a block more. Where a byte ends one of the first 4,096 steps, that step is kept behind those
// before it. No trait joins this with `scan_block` of text_impl, which keeps a line in three lent arrays: a trait of both
// would have the loop in one line, and a method for each of the other six.
pub fn read_block(from: Reading, block: &[u8]) -> Reading
    ensures { as_reading result.scan result.steps ≡ fed (as_reading from.scan from.steps)
        block.now }
{
    let mut scan = from.scan;
    let mut steps = from.steps;
    for &b in block {
        let next = scan_byte(scan, b);
        let row = scan.count;
        let count = next.count;
        if (row < count) & (row < 4096) {
            steps[row] = step_of(scan);
        }
        scan = next;
    }
    Reading { scan, steps }
}

// Whether the next byte would start a step.
fn at_line(place: Place) -> bool
    ensures { result ≡ at_line place }
{
    matches!(place, Place::Word(0))
}

// The text ends: whether it is accepted.
#[tactic(auto, unfolding(jobs::specs::internal::Scan::verdict, buffers::specs::Refusals::first_fitting))]
pub fn judge(s: Scan) -> Result<(), Refusal>
    ensures { number_of result ≡ verdict s }
{
    if !at_line(s.place) {
        return Err(Refusal::Form);
    }
    if 4096 < s.count {
        return Err(Refusal::Steps);
    }
    if (s.n == 0) | (64 < s.n) {
        return Err(Refusal::Count);
    }
    Ok(())
}
