// The print of a job's results, into a lent buffer.
ghost use Rattle.std.specs.Prelude.{◌++◌, ◌+◌, ◌<◌, ◌≤◌, length};
ghost use Rattle.jobs.specs.Results.{result_names, result_line};
ghost use Rattle.text.specs.Text.{digits, space};
ghost use Rattle.buffers.specs.Writing.{Printed};

use text_impl::printing::{put, put_bytes, put_decimal, put_field};

// A decimal number below 10,000.
fn put_number(k: u16, at: usize, out: &mut [u8]) -> usize
    requires { (k < 10000) × (at + 4 ≤ length out.old) }
    ensures { Printed (digits 4 k) at out.old out.new result }
{
    if k < 100 {
        return put_decimal(k as u8, at, out);
    }
    let hundreds = put_decimal((k / 100) as u8, at, out);
    let tens = put(b'0' + (k / 10 % 10) as u8, hundreds, out);
    put(b'0' + (k % 10) as u8, tens, out)
}

// A decimal number below 10,000 and the space behind it. No type parameter joins this with `put_field` of text_impl:
// they share one call of `put`.
pub fn put_long_field(k: u16, at: usize, out: &mut [u8]) -> usize
    requires { (k < 10000) × (at + 5 ≤ length out.old) }
    ensures { Printed (digits 4 k ++ space) at out.old out.new result }
{
    let next = put_number(k, at, out);
    put(b' ', next, out)
}

// The names of the results. Returns the place behind them.
pub fn print_result_names(at: usize, out: &mut [u8]) -> usize
    requires { at + 32 ≤ length out.old }
    ensures { Printed result_names at out.old out.new result }
{
    put_bytes(b"step refusal outcome determined\n", at, out)
}

// The line of step k. Returns the place behind it.
pub fn print_result(
    k: u16,
    refusal: u8,
    outcome: u8,
    determined: u8,
    at: usize,
    out: &mut [u8],
) -> usize
    requires { (k < 10000) × (refusal < 100) × (outcome < 100) × (determined < 100)
        × (at + 14 ≤ length out.old) }
    ensures { Printed
        (result_line k (record { refusal = refusal; outcome = outcome; determined = determined }))
        at out.old out.new result }
{
    let after_k = put_long_field(k, at, out);
    let after_refusal = put_field(refusal, after_k, out);
    let after_outcome = put_field(outcome, after_refusal, out);
    let after_determined = put_decimal(determined, after_outcome, out);
    put(b'\n', after_determined, out)
}
