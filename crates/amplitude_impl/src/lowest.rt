// The smallest supported word of a record, by measurements on a copy of it.
ghost use Rattle.std.specs.Prelude.{false, ◌≡◌, ◌<◌, length};
ghost use Rattle.amplitude.specs.internal.Measuring.{outcomes_down};
ghost use Rattle.amplitude.specs.Ratios.{lowest};
ghost use Rattle.operations.specs.internal.KeptGroups.{GroupHeld};
ghost use Rattle.operations.specs.internal.InPlace.{Unrefused, record_in};
ghost use Rattle.operations.specs.Measurement.{contradicts, measured_rows};
ghost use Rattle.pauli.specs.declared.Letter.TheVariants.{Z};
ghost use Rattle.record.specs.Lent.{held_record, held_rows};
ghost use Rattle.words.specs.Bits.{word_of};

use buffers::copies::copy_record;
use operations_measurement::{contradicted, measure_unsettled};
use words::flip_where;

// Measures Z at q, with outcome 0 where it is possible; answers whether it is 1.
fn forced(neighbours: &mut [u64], codes: &mut [u8], q: usize) -> bool
    requires { Unrefused (record_in neighbours.old codes.old) × (q < length neighbours.old) }
    ensures value { result ≡ contradicts (length neighbours.old)
        (held_rows (record_in neighbours.old codes.old)) Z q false }
    ensures group_held { GroupHeld (length neighbours.old) (measured_rows (length neighbours.old)
        (held_rows (record_in neighbours.old codes.old)) Z q result)
        neighbours.new codes.new }
{
    let one = contradicted(neighbours, codes, 3, q, false);
    measure_unsettled(neighbours, codes, 3, q, one);
    one
}

// The smallest supported word, by measurements of Z from the last qubit down.
fn measured_down(neighbours: &mut [u64], codes: &mut [u8]) -> u64
    requires { Unrefused (record_in neighbours.old codes.old) }
    ensures { result ≡ word_of (length neighbours.old)
        (outcomes_down (length neighbours.old)
        (held_record (record_in neighbours.old codes.old))) }
{
    let mut low = 0;
    for q in (0..neighbours.len()).rev() {
        low = flip_where(low, q, forced(neighbours, codes, q));
    }
    low
}

// The smallest supported word; words and bytes are room for a copy.
pub fn lowest(neighbours: &[u64], codes: &[u8], words: &mut [u64], bytes: &mut [u8]) -> u64
    requires unrefused { Unrefused (record_in neighbours.now codes.now) }
    requires words_len { (length words.old ≡ length neighbours.now) × (length bytes.old ≡ length neighbours.now) }
    ensures { result ≡ lowest (length neighbours.now)
        (held_rows (record_in neighbours.now codes.now)) }
{
    copy_record(neighbours, codes, words, bytes);
    measured_down(words, bytes)
}
