// Reads a job from standard input, to its end and in blocks, and prints the answer to it, which `job_reply` of
// jobs_replies makes of what was read.
#![tactic(auto)]

ghost use Rattle.std.specs.Prelude.{◌≤◌, length, ◌≡◌, IfOk, OnErr};
ghost use Rattle.jobs_replies.specs.Room.{longest_job};
ghost use Rattle.jobs.specs.internal.Scan.{as_reading};
ghost use Rattle.job.specs.Reads.{JobResponded};
ghost use Rattle.job.specs.internal.Reads.{ScannedJob};

use jobs_impl::scanning::{Reading, read_block, unread};
use jobs_replies::answers::job_reply;
use std::io;
use std::io::Read;
use text_replies::input::read_full;

// Reads the input to its end, block after block, and keeps the steps together. The only error is that of a read.
fn read_job<R: Read>(input: &mut R) -> io::Result<Reading>
    ensures { IfOk result (λ r. ScannedJob (as_reading r.scan r.steps)) }
{
    let mut read = unread();
    let mut block = [0u8; 4096];
    for _ in 0..u64::MAX {
        let got = read_full(input, &mut block)?;
        if got == 0 {
            return Ok(read);
        }
        let next = read_block(read, &block[..got]);
        read = next;
    }
    Ok(read)
}

// Prints the answer to the text of an input, or gives the error of a read, which leaves the buffer as it was.
fn respond<R: Read>(input: &mut R, out: &mut [u8]) -> io::Result<usize>
    requires { longest_job ≤ length out.old }
    ensures ok { IfOk result (JobResponded out.old out.new) }
    ensures err { OnErr result (out.new ≡ out.old) }
{
    let read = read_job(input)?;
    Ok(job_reply(read, out))
}

fn main(rt: HostRuntime) -> io::Result<()> {
    let mut out = [0u8; 59008];
    let end = respond(&mut rt.stdin(), &mut out)?;
    rt.write_all(&out[..end])
}
