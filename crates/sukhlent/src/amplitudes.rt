// The amplitudes of a record, as C sees them.
ghost use Rattle.calls.specs.Amplitudes.{amplitude_call};
ghost use Rattle.buffers.specs.Calls.{Call};
ghost use Rattle.operations.specs.Used.{used_record};

use buffers::refusals::number_of;

// The amplitude at y over that at the smallest word with a nonzero amplitude, as real and imaginary part, and the
// probability of y, as the bits of three floats, which C declares as floats.
#[unsafe(no_mangle)]
pub extern "C" fn sukhlent_amplitude(
    n: u64,
    neighbours: &[u64],
    codes: &[u8],
    used: u64,
    y: u64,
    re: &mut u64,
    im: &mut u64,
    p: &mut u64,
) -> u8
    ensures { Call (amplitude_call (used_record n neighbours.now codes.now used) y
        re.old im.old p.old re.new im.new p.new) result }
{
    number_of(call_readings::amplitudes::amplitude(n, neighbours, codes, used, y, re, im, p))
}
