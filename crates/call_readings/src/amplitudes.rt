// The public call on amplitudes.
ghost use Rattle.buffers.specs.internal.Numbers.{number_of};
ghost use Rattle.std.specs.Prelude.{not, ◌≡◌, T};
ghost use Rattle.std.specs.Float.Ieee.{is_nan};
ghost use Rattle.buffers.specs.Calls.{Call};
ghost use Rattle.calls.specs.Amplitudes.{amplitude_call, bits_of};
ghost use Rattle.operations.specs.Used.{used_record};

use amplitude_impl::answer::plot_at;
use buffers::refusals::Refusal;
use operations_checks::used_refusal;

// The bits of a float that is a number.
fn bits(v: f64) -> u64
    requires { T (not (is_nan v)) }
    ensures { result ≡ bits_of v }
{
    v.to_bits()
}

// The line of the plot at y: the amplitude over that at the smallest word with a nonzero amplitude, and the
// probability, as the bits of three floats.
pub fn amplitude(
    n: u64,
    neighbours: &[u64],
    codes: &[u8],
    used: u64,
    y: u64,
    re: &mut u64,
    im: &mut u64,
    p: &mut u64,
) -> Result<(), Refusal>
    ensures { Call (amplitude_call (used_record n neighbours.now codes.now used) y
        re.old im.old p.old re.new im.new p.new) (number_of result) }
{
    used_refusal(n, neighbours, codes, used, y, false, false)?;
    let line = plot_at(neighbours, codes, y);
    *re = bits(line.re);
    *im = bits(line.im);
    *p = bits(line.p);
    Ok(())
}
