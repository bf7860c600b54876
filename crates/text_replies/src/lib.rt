// Answers the text of a generator list that was scanned: prints the list's reduced record, or a refusal.
#![tactic(auto)]

pub mod input;
#[cfg(test)]
mod tests;

ghost use Rattle.std.specs.Prelude.{List, Result, ◌≡◌, ℕ, ◌≤◌, length};
ghost use Rattle.std.specs.Result.{result_ok};
ghost use Rattle.buffers.specs.Writing.{Printed};
ghost use Rattle.calls.specs.ListAnswers.{ListResponse, list_answer};
ghost use Rattle.text_replies.specs.internal.Places.{Lent, ScanOf, list_at};
ghost use Rattle.text_replies.specs.Places.{longest_record};

use buffers::refusals::Refusal;
use call_lists::reduce;
use text_impl::printing::{print_record, print_refusal};

// Reduces a list and prints its record, or the refusal's number.
fn print_reduced(
    n: usize,
    signs: &[u8],
    z: &[u64],
    x: &[u64],
    neighbours: &mut [u64],
    codes: &mut [u8],
    out: &mut [u8],
) -> usize
    requires { Lent n neighbours.old codes.old out.old }
    ensures { Printed
        (list_answer (record { n = n; signs = signs.now; z = z.now; x = x.now }))
        0 out.old out.new result }
{
    match reduce(n as u64, signs, z, x, neighbours, codes) {
        Ok(()) => print_record(n, neighbours, codes, 0, 0, out),
        Err(refusal) => print_refusal(refusal, out),
    }
}

// Prints the answer to the list of n generators at the start of the buffers.
fn list_answer(n: usize, signs: &[u8; 64], z: &[u64; 64], x: &[u64; 64], out: &mut [u8]) -> usize
    requires { longest_record ≤ length out.old }
    ensures { Printed (list_answer (list_at n signs.now z.now x.now)) 0 out.old out.new result }
{
    let m = n.min(64);
    let mut neighbours = [0u64; 64];
    let mut codes = [0u8; 64];
    print_reduced(
        n,
        &signs[..m],
        &z[..m],
        &x[..m],
        &mut neighbours[..m],
        &mut codes[..m],
        out,
    )
}

// Prints the answer to the text that was scanned, whatever text it was. The count in an `Err` is not looked at.
pub fn list_reply(
    verdict: Result<usize, usize>,
    signs: &[u8; 64],
    z: &[u64; 64],
    x: &[u64; 64],
    out: &mut [u8],
) -> usize
    requires { longest_record ≤ length out.old }
    ensures { (t : List ℕ) (v : Result ℕ ℕ) → result_ok v ≡ result_ok verdict → ScanOf t v signs.now z.now x.now
        → ListResponse list_answer t out.old out.new result }
{
    match verdict {
        Ok(n) => list_answer(n, signs, z, x, out),
        Err(_) => print_refusal(Refusal::Form, out),
    }
}
