// Runs a step on a lent record in place.
ghost use Rattle.buffers.specs.internal.Numbers.{number_of};
ghost use Rattle.std.specs.Prelude.{◌%◌, ◌+◌, ◌/◌, ◌<◌, ◌≡◌};
ghost use Rattle.buffers.specs.Calls.{Call};
ghost use Rattle.calls.specs.Sources.{renew_call};
ghost use Rattle.call_run.specs.internal.Waiting.{MeasuredStep, ObservedStep, Standing, meant};
ghost use Rattle.call_run.specs.internal.StepRuns.{NoOutcome, WaitedStep};
ghost use Rattle.operations.specs.Used.{used_record};

use crate::waiting::{
    complement_waiting, cz_waiting, gate_waiting, measure_waiting, observe_waiting, pivot_waiting,
    refused, renew_waiting,
};
use buffers::refusals::{Refusal, number_of};
use jobs::{Answer, Op, Step, unused_set, wrong_value};

// What a step without outcome answers.
fn plain(answer: Result<(), Refusal>) -> Answer
    ensures { result ≡ record { refusal = number_of answer; outcome = 0; determined = 0 } }
{
    Answer {
        refusal: number_of(answer),
        outcome: 0,
        determined: 0,
    }
}

// A measurement with the value 2 × (Pauli − 1) + outcome, on a record that may wait to be reduced.
fn measure_value(
    n: u64,
    neighbours: &mut [u64],
    codes: &mut [u8],
    used: &mut u64,
    qubit: u64,
    value: u16,
    waiting: bool,
) -> Answer
    requires value_bound { value < 6 }
    requires standing { Standing waiting (used_record n neighbours.old codes.old used.old) }
    ensures { MeasuredStep waiting (used_record n neighbours.old codes.old
        used.old) (value / 2 + 1) qubit (value % 2) neighbours.new codes.new
        used.new result.outcome
        result.determined result.refusal }
{
    let pauli = (value / 2 + 1) as u8;
    let bit = (value % 2) as u8;
    measure_waiting(n, neighbours, codes, used, pauli, qubit, bit, waiting)
}

// A measurement with a bit by lot and the value 2 × (Pauli − 1) + bit, on a record that may wait to be reduced.
fn observe_value(
    n: u64,
    neighbours: &mut [u64],
    codes: &mut [u8],
    used: &mut u64,
    qubit: u64,
    value: u16,
    waiting: bool,
) -> Answer
    requires value_bound { value < 6 }
    requires standing { Standing waiting (used_record n neighbours.old codes.old used.old) }
    ensures { ObservedStep waiting (used_record n neighbours.old codes.old
        used.old) (value / 2 + 1) qubit (value % 2) neighbours.new codes.new
        used.new result.outcome
        result.determined result.refusal }
{
    let pauli = (value / 2 + 1) as u8;
    let bit = (value % 2) as u8;
    observe_waiting(n, neighbours, codes, used, pauli, qubit, bit, waiting)
}

// A new photon with the value as its code, on a record that may wait to be reduced.
fn renew_value(
    n: u64,
    neighbours: &mut [u64],
    codes: &mut [u8],
    used: &mut u64,
    qubit: u64,
    value: u16,
    waiting: bool,
) -> Answer
    requires value_bound { value < 12 }
    requires standing { Standing waiting (used_record n neighbours.old codes.old used.old) }
    ensures { NoOutcome result × Call (renew_call (meant waiting (used_record n neighbours.old
        codes.old used.old)) qubit value neighbours.new codes.new
        used.new) result.refusal }
{
    plain(renew_waiting(n, neighbours, codes, used, qubit, value as u8, waiting))
}

// One step on a record that no line refuses. `waiting`: it stands for the reduced record of its group.
pub fn run_step(
    n: u64,
    neighbours: &mut [u64],
    codes: &mut [u8],
    used: &mut u64,
    s: Step,
    waiting: bool,
) -> Answer
    requires { Standing waiting (used_record n neighbours.old codes.old used.old) }
    ensures { WaitedStep waiting (used_record n neighbours.old codes.old
        used.old) s result neighbours.new codes.new used.new }
{
    let op = s.op;
    let value = s.value;
    let word = *used;
    if unused_set(op, s.b, value) | wrong_value(op, value) {
        return refused(Refusal::Value);
    }
    let a = s.a as u64;
    let b = s.b as u64;
    match op {
        Op::Gate => plain(gate_waiting(n, neighbours, codes, word, a, value as u8, waiting)),
        Op::Cz => plain(cz_waiting(n, neighbours, codes, word, a, b, waiting)),
        Op::Complement => plain(complement_waiting(n, neighbours, codes, word, a, waiting)),
        Op::Pivot => plain(pivot_waiting(n, neighbours, codes, word, a, b, waiting)),
        Op::Measure => measure_value(n, neighbours, codes, used, a, value, waiting),
        Op::Observe => observe_value(n, neighbours, codes, used, a, value, waiting),
        Op::Renew => renew_value(n, neighbours, codes, used, a, value, waiting),
    }
}
