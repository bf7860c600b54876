// Answers the text of a generator list that was scanned: prints the table of the list's amplitudes, or a refusal.
ghost use Rattle.std.specs.Prelude.{List, Result, ◌≡◌, ℕ, ◌≤◌, length};
ghost use Rattle.std.specs.Result.{result_ok};
ghost use Rattle.calls.specs.ListAnswers.{ListResponse};
ghost use Rattle.text_replies.specs.internal.Places.{ScanOf, list_at};
ghost use Rattle.buffers.specs.Writing.{Printed};
ghost use Rattle.calls.specs.PlotAnswers.{longest_table, plot_answer};
ghost use Rattle.jobs_replies.specs.internal.Rooms.{RoomFor};

use crate::tables::print_table;
use amplitude_impl::lowest::lowest;
use buffers::refusals::Refusal;
use call_lists::reduce;
use text_impl::printing::print_refusal;
use words::single;

// Reduces a list of at most 10 generators and prints the table of its amplitudes, or the refusal's number; words and
// bytes are room for a copy of the record.
fn print_plot(
    n: usize,
    signs: &[u8],
    z: &[u64],
    x: &[u64],
    neighbours: &mut [u64],
    codes: &mut [u8],
    words: &mut [u64],
    bytes: &mut [u8],
    out: &mut [u8],
) -> usize
    requires { RoomFor n neighbours.old codes.old words.old bytes.old out.old }
    ensures { Printed
        (plot_answer (record { n = n; signs = signs.now; z = z.now; x = x.now }))
        0 out.old out.new result }
{
    match reduce(n as u64, signs, z, x, neighbours, codes) {
        Ok(()) => {
            let low = lowest(neighbours, codes, words, bytes);
            print_table(neighbours, codes, low, single(n), out)
        }
        Err(refusal) => print_refusal(refusal, out),
    }
}

// Prints the answer to the list of n generators at the start of the buffers.
fn plot_answer(n: usize, signs: &[u8; 64], z: &[u64; 64], x: &[u64; 64], out: &mut [u8]) -> usize
    requires { longest_table ≤ length out.old }
    ensures { Printed (plot_answer (list_at n signs.now z.now x.now)) 0 out.old out.new result }
{
    if 10 < n {
        return print_refusal(Refusal::Count, out);
    }
    let mut neighbours = [0u64; 10];
    let mut codes = [0u8; 10];
    let mut words = [0u64; 10];
    let mut bytes = [0u8; 10];
    print_plot(
        n,
        &signs[..n],
        &z[..n],
        &x[..n],
        &mut neighbours[..n],
        &mut codes[..n],
        &mut words[..n],
        &mut bytes[..n],
        out,
    )
}

// Prints the answer to the text that was scanned, whatever text it was. The count in an `Err` is not looked at.
pub fn plot_reply(
    verdict: Result<usize, usize>,
    signs: &[u8; 64],
    z: &[u64; 64],
    x: &[u64; 64],
    out: &mut [u8],
) -> usize
    requires { longest_table ≤ length out.old }
    ensures { (t : List ℕ) (v : Result ℕ ℕ) → result_ok v ≡ result_ok verdict → ScanOf t v signs.now z.now x.now
        → ListResponse plot_answer t out.old out.new result }
{
    match verdict {
        Ok(n) => plot_answer(n, signs, z, x, out),
        Err(_) => print_refusal(Refusal::Form, out),
    }
}
