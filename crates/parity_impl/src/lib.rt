// The measurement of a Pauli row on a record in its buffers: where the row is not determined the record is expanded
// into its generators, these are changed, and the list is reduced.
#![tactic(auto)]

mod generators;

ghost use Rattle.std.specs.Prelude.{◌<◌, ◌^◌, length};
ghost use Rattle.operations.specs.internal.InPlace.{Unrefused, record_in};
ghost use Rattle.parity.specs.internal.InPlace.{RowInPlace};

use crate::generators::measure_open;
use expectation_impl::row_value;
use operations::Outcome;
use operations_gates::settling::normalise;

// Measures the row of these two words, sign plus, with a bit by lot, and leaves the reduced record of the group
// afterwards.
pub fn measure_row_record(
    neighbours: &mut [u64],
    codes: &mut [u8],
    z: u64,
    x: u64,
    bit: bool,
) -> Outcome
    requires unrefused { Unrefused (record_in neighbours.old codes.old) }
    requires z_bound { (z < 2 ^ (length neighbours.old)) × (x < 2 ^ (length neighbours.old)) }
    ensures { RowInPlace neighbours.old codes.old z x bit result
        neighbours.new codes.new }
{
    match row_value(neighbours.len(), neighbours, codes, z, x) {
        Some(minus) => {
            normalise(neighbours, codes);
            Outcome::Determined(minus)
        }
        None => {
            measure_open(neighbours, codes, z, x, bit);
            Outcome::Chosen(bit)
        }
    }
}
