// A line of a record's text: what its bytes say, and whether they are the print of that.
ghost use Rattle.std.specs.Prelude.{◌++◌, ◌%◌, ◌≡◌, ◌+◌, ◌≤◌, get_or, length};
ghost use Rattle.buffers.specs.Writing.{Printed};
ghost use Rattle.text.specs.RecordTexts.{decimal_value, hex_of, line_of, numeral};
ghost use Rattle.text.specs.Text.{hex_value, space};
ghost use Rattle.text_records.specs.internal.Reads.{LineTold};

use text::records::RecordLine;
use text_impl::printing::{put, put_columns, put_numeral};
use text_impl::scanning::{hex_value, pushed};

// A byte of a text; 0 past its end.
fn byte_at(text: &[u8], i: usize) -> u8
    ensures { result ≡ get_or text.now i 0 }
{
    text.get(i).copied().unwrap_or(0)
}

// The value of a decimal digit, and a digit for any other byte.
fn decimal_value(b: u8) -> u8
    ensures { result ≡ decimal_value b }
{
    hex_value(b).unwrap_or(6) % 10
}

// The value of a hexadecimal digit, and 0 for any other byte.
fn digit_of(b: u8) -> u8
    ensures { result ≡ hex_value b % 16 }
{
    hex_value(b).unwrap_or(0)
}

// The word of 16 digits from a place on.
fn word_at(text: &[u8], from: usize) -> u64
    requires { from ≤ 100 }
    ensures { result ≡ hex_of 16 (λ c. get_or text.now (from + c) 0) }
{
    let mut w = 0;
    for k in 0..16 {
        w = pushed(w, digit_of(byte_at(text, from + k)));
    }
    w
}

// What the columns from a place on say: a code ends at its first space.
fn columns_at(text: &[u8], from: usize) -> RecordLine
    requires { from ≤ 64 }
    ensures { result ≡ line_of (λ c. get_or text.now (from + c) 0) }
{
    let first = decimal_value(byte_at(text, from));
    let second = byte_at(text, from + 1);
    if second == b' ' {
        return RecordLine {
            code: first,
            word: word_at(text, from + 2),
            used: byte_at(text, from + 19) == b'1',
        };
    }
    RecordLine {
        code: 10 * first + decimal_value(second),
        word: word_at(text, from + 3),
        used: byte_at(text, from + 20) == b'1',
    }
}

// What a line says, and how many bytes its print has.
#[derive(Clone, Copy)]
pub struct ReadLine {
    pub line: RecordLine,
    pub size: usize,
}

// The number of a line and the space behind it, at the start of a buffer.
fn print_number(q: u64, out: &mut [u8]) -> usize
    requires { 21 ≤ length out.old }
    ensures { Printed (numeral q ++ space) 0 out.old out.new result }
{
    let behind = put_numeral(q, 0, out);
    put(b' ', behind, out)
}

// The line of qubit q at the start of a text, printed into a buffer and compared with the text.
fn read_printing(q: u64, text: &[u8], out: &mut [u8]) -> Result<ReadLine, ReadLine>
    requires { 64 ≤ length out.old }
    ensures { LineTold q text.now result }
{
    let from = print_number(q, out);
    let line = columns_at(text, from);
    let size = put_columns(line, from, out);
    let read = ReadLine { line, size };
    if text.starts_with(&out[..size]) {
        Ok(read)
    } else {
        Err(read)
    }
}

// The line of qubit q at the start of a text; `Err` of what its bytes say, where the text does not start with the print
// of that.
pub fn read_line(q: u64, text: &[u8]) -> Result<ReadLine, ReadLine>
    ensures { LineTold q text.now result }
{
    let mut room = [0u8; 64];
    read_printing(q, text, &mut room)
}
