// The print of a plot's table, into a lent buffer.
ghost use Rattle.std.specs.Prelude.{not, [], ◌∷◌, ◌++◌, ◌*◌, ◌+◌, ◌<◌, ◌≤◌, T, length};
ghost use Rattle.std.specs.Float.Ieee.{is_nan};
ghost use Rattle.amplitude.specs.Ratios.{plot_at};
ghost use Rattle.amplitude_impl.specs.internal.Plottable.{Plottable};
ghost use Rattle.operations.specs.internal.InPlace.{record_in};
ghost use Rattle.record.specs.Lent.{held_rows};
ghost use Rattle.buffers.specs.Writing.{Printed};
ghost use Rattle.jobs.specs.Table.{float_text, plot_names, point_text, table_text};
ghost use Rattle.jobs.specs.internal.Numbers.{AllNumbers};

use amplitude::PlotLine;
use amplitude_impl::answer::line_at;
use jobs_impl::printing::put_long_field;
use text_impl::printing::{put, put_bytes, put_word};

// The bits of a float that is a number, in 16 hexadecimal digits, and a byte behind them.
fn put_float(v: f64, end: u8, at: usize, out: &mut [u8]) -> usize
    requires { T (not (is_nan v)) × (at + 17 ≤ length out.old) }
    ensures { Printed (float_text v ++ end ∷ []) at out.old out.new result }
{
    let next = put_word(f64::to_bits(v), at, out);
    put(end, next, out)
}

// The names of the columns. Returns the place behind them.
fn print_plot_names(at: usize, out: &mut [u8]) -> usize
    requires { at + 10 ≤ length out.old }
    ensures { Printed plot_names at out.old out.new result }
{
    put_bytes(b"y re im p\n", at, out)
}

// The line of the word y. Returns the place behind it.
fn print_point(y: u16, line: PlotLine, at: usize, out: &mut [u8]) -> usize
    requires { (y < 10000) × AllNumbers line × (at + 56 ≤ length out.old) }
    ensures { Printed (point_text y line) at out.old out.new result }
{
    let after_y = put_long_field(y, at, out);
    let after_re = put_float(line.re, b' ', after_y, out);
    let after_im = put_float(line.im, b' ', after_re, out);
    put_float(line.p, b'\n', after_im, out)
}

// The table of a record of reduced form with this smallest supported word: the names, and the lines of the words below
// count. Returns the number of bytes.
pub fn print_table(neighbours: &[u64], codes: &[u8], low: u64, count: u64, out: &mut [u8]) -> usize
    requires plottable { Plottable neighbours.now codes.now low }
    requires count_bound { (count ≤ 10000) × (10 + count * 56 ≤ length out.old) }
    ensures { Printed (table_text count (plot_at (length neighbours.now)
        (held_rows (record_in neighbours.now codes.now))))
        0 out.old out.new result }
{
    let mut at = print_plot_names(0, out);
    for y in 0..count {
        let line = line_at(neighbours, codes, low, y);
        at = print_point(y as u16, line, at, out);
    }
    at
}
