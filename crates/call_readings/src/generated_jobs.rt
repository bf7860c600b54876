// The public call that writes the text of a job drawn from a seed.
ghost use Rattle.buffers.specs.internal.Numbers.{number_of};
ghost use Rattle.std.specs.Prelude.{◌≡◌};
ghost use Rattle.buffers.specs.Refusals.{first_fitting};
ghost use Rattle.buffers.specs.Calls.{Call};
ghost use Rattle.calls.specs.Generation.{generate_call};
ghost use Rattle.jobs.specs.GeneratedLines.{generate_lines};

use buffers::refusals::Refusal;
use buffers::{bad_count, other_than};
use jobs_impl::generated::put_job;

// The first line that holds; `Ok` where none does.
fn generate_refusal(n: u64, count: u64, seed: u64, text: &[u8]) -> Result<(), Refusal>
    ensures { number_of result ≡ first_fitting (generate_lines n count seed text.now) }
{
    if 4096 < count {
        return Err(Refusal::Steps);
    }
    if bad_count(n) {
        return Err(Refusal::Count);
    }
    if other_than(text.len(), 61463) {
        return Err(Refusal::Length);
    }
    if seed == 0 {
        return Err(Refusal::Value);
    }
    Ok(())
}

// The text of the job of `count` steps drawn from the seed, at the start of the buffer, and its length.
pub fn generate(
    n: u64,
    count: u64,
    seed: u64,
    text: &mut [u8],
    length: &mut u64,
) -> Result<(), Refusal>
    ensures { Call (generate_call n count seed text.old length.old
        text.new length.new) (number_of result) }
{
    generate_refusal(n, count, seed, text)?;
    *length = put_job(n, count, seed, text) as u64;
    Ok(())
}
