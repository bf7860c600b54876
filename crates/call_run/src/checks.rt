// What the call over many steps checks, and its answers told apart.
ghost use Rattle.buffers.specs.internal.Numbers.{number_of};
ghost use Rattle.std.specs.Prelude.{false, not, ◌||◌, ◌∷◌, ◌≡◌, ◌%◌, ◌/◌, eqb, ltb, get_or, length};
ghost use Rattle.buffers.specs.Buffers.{tabulate};
ghost use Rattle.buffers.specs.Refusals.{first_fitting, line, reaching};
ghost use Rattle.operations.specs.Used.{used_lines, used_record};

use buffers::refusals::Refusal;
use buffers::{other_than, reaches};
use operations_checks::used_refusal;

// Line 4: whether one of three slices does not have a place for each step.
pub fn one_other_than(count: usize, first: usize, second: usize, third: usize) -> bool
    ensures { result ≡ (not (eqb first count) || (not (eqb second count) || not (eqb third count))) }
{
    let m = count as u64;
    other_than(first, m) | (other_than(second, m) | other_than(third, m))
}

// The first line that holds; `others`: the slices' lengths differ.
pub fn run_refusal(
    n: u64,
    neighbours: &[u64],
    codes: &[u8],
    used: u64,
    ops: &[u8],
    others: bool,
) -> Result<(), Refusal>
    ensures { number_of result ≡ first_fitting (line 15 (ltb 4096 (length ops.now)) ∷ used_lines
        (used_record n neighbours.now codes.now used) others false
        (reaching 7 ops.now)) }
{
    if 4096 < ops.len() {
        return Err(Refusal::Steps);
    }
    let six = reaches(ops, 7);
    used_refusal(n, neighbours, codes, used, 0, others, six)
}

// The answers that were kept as one number each, told apart: the number of the refusal stays where it was, without the
// mark.
pub fn unpack(answers: &mut [u8], outcomes: &mut [u8], determined: &mut [u8])
    requires { (length outcomes.old ≡ length answers.old) × (length determined.old ≡ length answers.old) }
    ensures { (answers.new
        ≡ tabulate (length answers.old) (λ k. get_or answers.old k 0 / 4 % 32))
        × (outcomes.new
        ≡ tabulate (length answers.old) (λ k. get_or answers.old k 0 / 2 % 2))
        × (determined.new
        ≡ tabulate (length answers.old) (λ k. get_or answers.old k 0 % 2)) }
{
    for k in 0..answers.len() {
        let p = answers[k];
        answers[k] = p / 4 % 32;
        outcomes[k] = p / 2 % 2;
        determined[k] = p % 2;
    }
}
