// Reads the operation of a step, letter by letter.
ghost use Rattle.std.specs.Prelude.{◌≡◌};
ghost use Rattle.jobs.specs.internal.Scan.{first_op, after_o, op_for, word_step};

use jobs::Op;
use jobs::letters::op_letters;
use jobs::scan::{Field, Place, Scan};

#[tactic(auto, unfolding(jobs::specs::internal::Scan::first_op))]
fn first_op(b: u8) -> Op
    ensures { result ≡ first_op b }
{
    match b {
        b'g' => Op::Gate,
        b'c' => Op::Cz,
        b'm' => Op::Measure,
        _ => Op::Pivot,
    }
}

fn after_o(op: Op) -> Op
    ensures { result ≡ after_o op }
{
    match op {
        Op::Cz => Op::Complement,
        _ => op,
    }
}

// The operation whose letter k the byte b can be.
#[tactic(auto, unfolding(jobs::specs::internal::Scan::op_for))]
fn op_for(k: usize, op: Op, b: u8) -> Op
    ensures { result ≡ op_for k op b }
{
    match (k, b) {
        (0, _) => first_op(b),
        (1, b'o') => after_o(op),
        _ => op,
    }
}

// After k letters of the operation.
#[tactic(auto, unfolding(jobs::specs::internal::Scan::word_step))]
pub fn word_step(k: usize, s: Scan, b: u8) -> Scan
    ensures { result ≡ word_step k s b }
{
    if 11 <= k {
        return Scan {
            place: Place::Broken,
            ..s
        };
    }
    let op = op_for(k, s.op, b);
    let word = op_letters(op);
    if b != word[k] {
        return Scan {
            place: Place::Broken,
            ..s
        };
    }
    if b == b' ' {
        return Scan {
            place: Place::First(Field::A),
            op,
            ..s
        };
    }
    Scan {
        place: Place::Word(k + 1),
        op,
        ..s
    }
}
