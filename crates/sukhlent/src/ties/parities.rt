// The measurement of a Pauli row: what is said of it.
ghost use Rattle.claims_parity.specs.Parities.{MeasureRowSays};
ghost use Rattle.operations.specs.Used.{used_record};

use crate::parities::sukhlent_measure_row;

pub fn measure_row_says(
    n: u64,
    neighbours: &mut [u64],
    codes: &mut [u8],
    used: u64,
    z: u64,
    x: u64,
    bit: u8,
    answer: &mut u8,
    determined: &mut u8,
) -> u8
    ensures { MeasureRowSays
        (used_record n neighbours.old codes.old used)
        z x bit answer.old determined.old
        neighbours.new codes.new answer.new determined.new result }
{
    sukhlent_measure_row(n, neighbours, codes, used, z, x, bit, answer, determined)
}
