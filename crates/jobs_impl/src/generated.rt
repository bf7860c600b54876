// The text of the job that is drawn, in a lent buffer.
ghost use Rattle.std.specs.Prelude.{◌≡◌, ◌++◌, ◌+◌, ◌<◌, ◌≤◌, length};
ghost use Rattle.jobs.specs.Drawn.{generated_text};
ghost use Rattle.jobs.specs.GeneratedLines.{room};
ghost use Rattle.jobs.specs.internal.Shapes.{Small};
ghost use Rattle.jobs.specs.Text.{job_head, op_word, step_text};
ghost use Rattle.text.specs.Text.{space};
ghost use Rattle.buffers.specs.Writing.{Printed};

use jobs::drawing::{draw, drawn_step};
use jobs::letters::op_letters;
use jobs::{Op, Step};
use text_impl::printing::{put, put_bytes, put_decimal, put_field};

// How many letters an operation and the space behind it have.
#[tactic(auto, unfolding(jobs::specs::Text::op_word))]
fn op_length(op: Op) -> usize
    ensures { result ≡ length (op_word op ++ space) }
{
    match op {
        Op::Cz => 3,
        Op::Gate => 5,
        Op::Pivot | Op::Renew => 6,
        Op::Measure | Op::Observe => 8,
        Op::Complement => 11,
    }
}

fn put_op(op: Op, at: usize, out: &mut [u8]) -> usize
    requires { at + length (op_word op ++ space) ≤ length out.old }
    ensures { Printed (op_word op ++ space) at out.old out.new result }
{
    let letters = op_letters(op);
    let count = op_length(op);
    put_bytes(&letters[..count], at, out)
}

// The line of a step.
fn put_step(s: Step, at: usize, out: &mut [u8]) -> usize
    requires { Small s × (at + length (step_text s) ≤ length out.old) }
    ensures { Printed (step_text s) at out.old out.new result }
{
    let after_op = put_op(s.op, at, out);
    let after_a = put_field(s.a as u8, after_op, out);
    let after_b = put_field(s.b as u8, after_a, out);
    let after_value = put_decimal(s.value as u8, after_b, out);
    put(b'\n', after_value, out)
}

// The three lines before the steps.
fn put_head(n: u64, out: &mut [u8]) -> usize
    requires { (n ≤ 64) × (23 ≤ length out.old) }
    ensures { Printed (job_head n) 0 out.old out.new result }
{
    let after_names = put_bytes(b"qubits\n", 0, out);
    let after_n = put_decimal(n as u8, after_names, out);
    put_bytes(b"\nop a b value\n", after_n, out)
}

// The text of the job that is drawn. Returns the number of bytes.
pub fn put_job(n: u64, count: u64, seed: u64, out: &mut [u8]) -> usize
    requires { (0 < n) × (n ≤ 64) × (count ≤ 4096) × (length out.old ≡ room) }
    ensures { Printed (generated_text n count seed) 0 out.old out.new result }
{
    let mut at = put_head(n, out);
    let mut s = seed;
    for _ in 0..count {
        s = draw(s);
        at = put_step(drawn_step(n, s), at, out);
    }
    at
}
