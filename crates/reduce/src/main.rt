// Reads a generator list from standard input, by `read_list` of text_replies, and prints the answer to it, which `list_reply`
// of text_replies makes of what was scanned.
#![tactic(auto)]

ghost use Rattle.std.specs.Prelude.{◌≤◌, length, ◌≡◌, IfOk, OnErr};
ghost use Rattle.text_replies.specs.Places.{longest_record};
ghost use Rattle.reduce.specs.Reads.{ReduceResponded};

use std::io;
use std::io::Read;
use text_replies::input::read_list;
use text_replies::list_reply;

// Prints the answer to the text of an input, or gives the error of a read, which leaves the buffer as it was.
fn respond<R: Read>(input: &mut R, out: &mut [u8]) -> io::Result<usize>
    requires { longest_record ≤ length out.old }
    ensures ok { IfOk result (ReduceResponded out.old out.new) }
    ensures err { OnErr result (out.new ≡ out.old) }
{
    let mut signs = [0u8; 64];
    let mut z = [0u64; 64];
    let mut x = [0u64; 64];
    let verdict = read_list(input, &mut signs, &mut z, &mut x)?;
    Ok(list_reply(verdict, &signs, &z, &x, out))
}

fn main(rt: HostRuntime) -> io::Result<()> {
    let mut out = [0u8; 2048];
    let end = respond(&mut rt.stdin(), &mut out)?;
    rt.write_all(&out[..end])
}
