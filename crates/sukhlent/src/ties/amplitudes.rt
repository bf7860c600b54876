// The amplitudes of a record: what the demands say of them.
ghost use Rattle.claims.specs.Sentences.Amplitudes.{AmplitudeSays};
ghost use Rattle.operations.specs.Used.{used_record};

use crate::amplitudes::sukhlent_amplitude;

pub fn amplitude_says(
    n: u64,
    neighbours: &[u64],
    codes: &[u8],
    used: u64,
    y: u64,
    re: &mut u64,
    im: &mut u64,
    p: &mut u64,
) -> u8
    ensures { AmplitudeSays (used_record n neighbours.now codes.now used) y
        re.old im.old p.old re.new im.new p.new result }
{
    sukhlent_amplitude(n, neighbours, codes, used, y, re, im, p)
}
