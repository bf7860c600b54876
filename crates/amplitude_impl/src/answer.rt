// Lines of the plot of a record: read off its reduced form, and of any record by local copies of it.
ghost use Rattle.std.specs.Prelude.{◌≡◌, length};
ghost use Rattle.amplitude.specs.Ratios.{amplitude_of, plot_at};
ghost use Rattle.operations.specs.internal.InPlace.{Unrefused, record_in};
ghost use Rattle.record.specs.Lent.{held_rows};
ghost use Rattle.amplitude_impl.specs.internal.Plottable.{Plottable};

use crate::lines::{plot_line, turned};
use crate::lowest::lowest;
use crate::turns::{kept, supports, turns};
use amplitude::{Amplitude, PlotLine};
use buffers::copies::copy_record;
use operations_gates::settling::normalise;
use words::count;

// The answer at y of a record of reduced form with this smallest supported word.
fn answer_at(neighbours: &[u64], codes: &[u8], low: u64, y: u64) -> Amplitude
    requires { Plottable neighbours.now codes.now low }
    ensures { result ≡ amplitude_of (length neighbours.now)
        (held_rows (record_in neighbours.now codes.now)) y }
{
    if !supports(neighbours, codes, y) {
        return Amplitude::Nothing;
    }
    let there = turns(neighbours, codes, y);
    let here = turns(neighbours, codes, low);
    turned((there + 3 * here % 4) % 4)
}

// The line of the plot at y of a record of reduced form with this smallest supported word: as many halves as vertices
// without a Hadamard.
pub fn line_at(neighbours: &[u64], codes: &[u8], low: u64, y: u64) -> PlotLine
    requires { Plottable neighbours.now codes.now low }
    ensures { result ≡ plot_at (length neighbours.now)
        (held_rows (record_in neighbours.now codes.now)) y }
{
    let answer = answer_at(neighbours, codes, low, y);
    plot_line(answer, count(kept(codes)))
}

// The line at y of the plot of a record; four buffers with as many places are room for two copies.
fn line_by_copies(
    neighbours: &[u64],
    codes: &[u8],
    y: u64,
    words: &mut [u64],
    bytes: &mut [u8],
    measured: &mut [u64],
    numbers: &mut [u8],
) -> PlotLine
    requires unrefused { Unrefused (record_in neighbours.now codes.now) }
    requires words_len { (length words.old ≡ length neighbours.now) × (length bytes.old ≡ length neighbours.now) }
    requires measured_len { (length measured.old ≡ length neighbours.now) × (length numbers.old ≡ length
        neighbours.now) }
    ensures { result ≡ plot_at (length neighbours.now)
        (held_rows (record_in neighbours.now codes.now)) y }
{
    copy_record(neighbours, codes, words, bytes);
    normalise(words, bytes);
    let low = lowest(words, bytes, measured, numbers);
    line_at(words, bytes, low, y)
}

// The line at y of the plot of a record.
pub fn plot_at(neighbours: &[u64], codes: &[u8], y: u64) -> PlotLine
    requires { Unrefused (record_in neighbours.now codes.now) }
    ensures { result ≡ plot_at (length neighbours.now)
        (held_rows (record_in neighbours.now codes.now)) y }
{
    let n = neighbours.len();
    let mut words = [0u64; 64];
    let mut bytes = [0u8; 64];
    let mut measured = [0u64; 64];
    let mut numbers = [0u8; 64];
    line_by_copies(
        neighbours,
        codes,
        y,
        &mut words[..n],
        &mut bytes[..n],
        &mut measured[..n],
        &mut numbers[..n],
    )
}
