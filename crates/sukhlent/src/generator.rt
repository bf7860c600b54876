// The generator of jobs, as C sees it.
ghost use Rattle.calls.specs.Generation.{generate_call};
ghost use Rattle.buffers.specs.Calls.{Call};

use buffers::refusals::number_of;

// The text of the job of `count` steps that is drawn from a seed, at the start of the buffer, and its length.
#[unsafe(no_mangle)]
pub extern "C" fn sukhlent_generate(
    n: u64,
    count: u64,
    seed: u64,
    text: &mut [u8],
    length: &mut u64,
) -> u8
    ensures { Call (generate_call n count seed text.old length.old
        text.new length.new) result }
{
    number_of(call_readings::generated_jobs::generate(n, count, seed, text, length))
}
