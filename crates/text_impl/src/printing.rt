// The print of a record and of a refusal, into a lent buffer.
ghost use Rattle.std.specs.Prelude.{◌≡◌, [], ◌∷◌, ◌++◌, ◌+◌, ◌<◌, ◌≤◌, length};
ghost use Rattle.text.specs.RecordTexts.{columns, numeral};
ghost use Rattle.text.specs.Text.{hex_digit, hex_text, decimal, space, qubit_line, record_text, refused_text};
ghost use Rattle.text.specs.Text.{used_column};
ghost use Rattle.buffers.specs.internal.Numbers.{refusal_number};
ghost use Rattle.buffers.specs.Writing.{Printed};
ghost use Rattle.text.specs.internal.Text.{Printable};

use buffers::copy_front;
use buffers::refusals::Refusal;
use text::records::RecordLine;
use words::has;

#[tactic(auto, unfolding(text::specs::Text::hex_digit))]
fn hex_digit(d: u8) -> u8
    requires { d < 16 }
    ensures { result ≡ hex_digit d }
{
    if d < 10 { b'0' + d } else { b'a' + (d - 10) }
}

#[tactic(auto, unfolding(buffers::specs::Writing::overwritten))]
pub fn put(b: u8, at: usize, out: &mut [u8]) -> usize
    requires { at < length out.old }
    ensures { Printed (b ∷ []) at out.old out.new result }
{
    out[at] = b;
    at + 1
}

#[tactic(auto, unfolding(buffers::specs::Writing::overwritten))]
pub fn put_bytes(bytes: &[u8], at: usize, out: &mut [u8]) -> usize
    requires { at + length bytes.now ≤ length out.old }
    ensures { Printed bytes.now at out.old out.new result }
{
    let end = at + bytes.len();
    copy_front(bytes, &mut out[at..end]);
    end
}

// A decimal number below 100.
pub fn put_decimal(k: u8, at: usize, out: &mut [u8]) -> usize
    requires { (k < 100) × (at + 2 ≤ length out.old) }
    ensures { Printed (decimal k) at out.old out.new result }
{
    if k < 10 {
        return put(b'0' + k, at, out);
    }
    let next = put(b'0' + k / 10, at, out);
    put(b'0' + k % 10, next, out)
}

// A decimal number of any size.
pub fn put_numeral(k: u64, at: usize, out: &mut [u8]) -> usize
    requires { at + length (numeral k) ≤ length out.old }
    ensures { Printed (numeral k) at out.old out.new result }
{
    if k < 10 {
        return put(b'0' + k as u8, at, out);
    }
    let next = put_numeral(k / 10, at, out);
    put(b'0' + (k % 10) as u8, next, out)
}

// The word in 16 hexadecimal digits, the highest first.
pub fn put_word(w: u64, at: usize, out: &mut [u8]) -> usize
    requires { at + 16 ≤ length out.old }
    ensures { Printed (hex_text 16 w) at out.old out.new result }
{
    for i in 0..16 {
        let d = (w >> (60 - 4 * i)) % 16;
        out[at + i] = hex_digit(d as u8);
    }
    at + 16
}

// A decimal number below 100 and the space behind it.
pub fn put_field(k: u8, at: usize, out: &mut [u8]) -> usize
    requires { (k < 100) × (at + 3 ≤ length out.old) }
    ensures { Printed (decimal k ++ space) at out.old out.new result }
{
    let next = put_decimal(k, at, out);
    put(b' ', next, out)
}

// The column `used`, and the end of the line.
fn put_used(used: bool, at: usize, out: &mut [u8]) -> usize
    requires { at + 3 ≤ length out.old }
    ensures { Printed (used_column used) at out.old out.new result }
{
    if used {
        put_bytes(b" 1\n", at, out)
    } else {
        put_bytes(b" 0\n", at, out)
    }
}

// The columns behind a qubit's number.
pub fn put_columns(line: RecordLine, at: usize, out: &mut [u8]) -> usize
    requires { (line.code < 100) × (at + 22 ≤ length out.old) }
    ensures { Printed (columns line) at out.old out.new result }
{
    let after_code = put_field(line.code, at, out);
    let after_word = put_word(line.word, after_code, out);
    put_used(line.used, after_word, out)
}

// The line of qubit q.
fn put_line(q: u8, line: RecordLine, at: usize, out: &mut [u8]) -> usize
    requires { (q < 100) × (line.code < 100) × (at + 25 ≤ length out.old) }
    ensures { Printed (qubit_line q line.code line.word line.used) at out.old out.new result }
{
    let after_q = put_field(q, at, out);
    put_columns(line, after_q, out)
}

// The record of n qubits, from a place on: the names and a line for each qubit. Returns the place behind it.
pub fn print_record(
    n: usize,
    neighbours: &[u64],
    codes: &[u8],
    used: u64,
    from: usize,
    out: &mut [u8],
) -> usize
    requires { Printable n neighbours.now codes.now from out.old }
    ensures { Printed (record_text n neighbours.now codes.now used) from
        out.old out.new result }
{
    let mut at = put_bytes(b"qubit code neighbours used\n", from, out);
    for q in 0..n {
        let line = RecordLine {
            code: codes[q],
            word: neighbours[q],
            used: has(used, q),
        };
        at = put_line(q as u8, line, at, out);
    }
    at
}

// The line of a refusal. Returns the number of bytes.
pub fn print_refusal(refusal: Refusal, out: &mut [u8]) -> usize
    requires { 11 ≤ length out.old }
    ensures { Printed (refused_text (refusal_number refusal)) 0 out.old out.new result }
{
    let word = put_bytes(b"refused ", 0, out);
    let number = put_decimal(refusal.number(), word, out);
    put(b'\n', number, out)
}
