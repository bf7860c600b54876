// The value of a Pauli row: what the demands say of it.
ghost use Rattle.claims.specs.Sentences.Expectations.{ExpectationSays};
ghost use Rattle.operations.specs.Used.{used_record};

use crate::expectations::sukhlent_expectation;

pub fn expectation_says(
    n: u64,
    neighbours: &[u64],
    codes: &[u8],
    used: u64,
    z: u64,
    x: u64,
    value: &mut u8,
) -> u8
    ensures { ExpectationSays
        (used_record n neighbours.now codes.now used) z x
        value.old value.new result }
{
    sukhlent_expectation(n, neighbours, codes, used, z, x, value)
}
