// Jobs: sessions written as steps, each with its operation, its qubits and a value: see specs/ and proofs/.
// The table of a plot as text. See specs/ for the definitions and proofs/ for the laws.
#![tactic(auto)]

pub mod drawing;
pub mod letters;
pub mod scan;

ghost use Rattle.std.specs.Prelude.{◌≡◌};
ghost use Rattle.jobs.specs.Asked.{unused_set};
ghost use Rattle.jobs.specs.internal.Asked.{value_limit, without_b, without_value, wrong_value};
ghost use Rattle.jobs.specs.Parallel.{numbered_op};

// The operations of a run. A job's text has the first five.
#[derive(Clone, Copy)]
pub enum Op {
    Gate,
    Cz,
    Measure,
    Complement,
    Pivot,
    Observe,
    Renew,
}

// The fields as the text has them; what an operation does not use is 0.
#[derive(Clone, Copy)]
pub struct Step {
    pub op: Op,
    pub a: u16,
    pub b: u16,
    pub value: u16,
}

// What a step answers: the number of its refusal, and of an accepted measurement the outcome and whether it was
// determined: three numbers, as the definitions of specs/ and C have them.
#[derive(Clone, Copy)]
pub struct Answer {
    pub refusal: u8,
    pub outcome: u8,
    pub determined: u8,
}

// Whether the operation does not use its second qubit.
fn without_b(op: Op) -> bool
    ensures { result ≡ without_b op }
{
    !matches!(op, Op::Cz | Op::Pivot)
}

// Whether the operation does not use its value.
fn without_value(op: Op) -> bool
    ensures { result ≡ without_value op }
{
    matches!(op, Op::Cz | Op::Complement | Op::Pivot)
}

// The least number that is no value of the operation: no field reaches 65536, of those that use none.
fn value_limit(op: Op) -> u32
    ensures { result ≡ value_limit op }
{
    match op {
        Op::Gate => 24,
        Op::Measure | Op::Observe => 6,
        Op::Renew => 12,
        Op::Cz | Op::Complement | Op::Pivot => 65536,
    }
}

// Whether a field that the operation does not use is not 0.
pub fn unused_set(op: Op, b: u16, value: u16) -> bool
    ensures { result ≡ unused_set op b value }
{
    (without_b(op) & (b != 0)) | (without_value(op) & (value != 0))
}

// Whether the value is no code, or for a measurement no Pauli and outcome. Of a renewal's code its parity is not looked
// at.
pub fn wrong_value(op: Op, value: u16) -> bool
    ensures { result ≡ wrong_value op value }
{
    value_limit(op) <= value as u32
}

// The operation of a number. No `From`: the number is the C interface's, and its numbers above 6 are refused elsewhere.
#[tactic(auto, unfolding(crate::specs::Parallel::numbered_op))]
pub fn op_of(k: u8) -> Op
    ensures { result ≡ numbered_op k }
{
    match k {
        0 => Op::Gate,
        1 => Op::Cz,
        2 => Op::Measure,
        3 => Op::Complement,
        4 => Op::Pivot,
        5 => Op::Observe,
        _ => Op::Renew,
    }
}
