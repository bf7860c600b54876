// The lines of a list as Pauli strings, into a lent buffer.
ghost use Rattle.std.specs.Prelude.{◌≡◌, ◌+◌, ◌≤◌, length};
ghost use Rattle.buffers.specs.Buffers.{tabulate};
ghost use Rattle.pauli.specs.Pauli.{letter, signed_row};
ghost use Rattle.stabilizer.specs.Lists.{rows};
ghost use Rattle.text.specs.Strings.{letter_byte, sign_byte, string_line, strings_text, text_size};
ghost use Rattle.buffers.specs.Writing.{Printed};
ghost use Rattle.words.specs.Bits.{bit, is_odd};

use pauli::{Letter, letter_of};
use text_impl::printing::put;
use words::has;

// No `From`: it stands in the crate of the type, `pauli`, and texts are no part of that.
fn letter_byte(l: Letter) -> u8
    ensures { result ≡ letter_byte l }
{
    match l {
        Letter::I => b'I',
        Letter::X => b'X',
        Letter::Y => b'Y',
        Letter::Z => b'Z',
    }
}

fn sign_byte(minus: bool) -> u8
    ensures { result ≡ sign_byte minus }
{
    if minus { b'-' } else { b'+' }
}

// The letters of the first n qubits.
fn put_letters(n: usize, z: u64, x: u64, at: usize, out: &mut [u8]) -> usize
    requires { (n ≤ 64) × (at + n ≤ length out.old) }
    ensures { Printed (tabulate n (λ q. letter_byte (letter (bit z q) (bit x q)))) at
        out.old out.new result }
{
    for q in 0..n {
        out[at + q] = letter_byte(letter_of(has(z, q), has(x, q)));
    }
    at + n
}

// The line of a row.
fn put_string(n: usize, sign: u8, z: u64, x: u64, at: usize, out: &mut [u8]) -> usize
    requires { (n ≤ 64) × (at + (n + 2) ≤ length out.old) }
    ensures { Printed (string_line n (signed_row (is_odd sign) z x)) at out.old out.new result }
{
    let letters = put(sign_byte(sign % 2 == 1), at, out);
    let end = put_letters(n, z, x, letters, out);
    put(b'\n', end, out)
}

// The text of a list fills the buffer.
pub fn put_strings(n: usize, signs: &[u8], z: &[u64], x: &[u64], out: &mut [u8])
    requires n_bound { (n ≤ 64) × (length signs.now ≡ n) × (length z.now ≡ n) × (length x.now ≡ n) }
    requires out_len { length out.old ≡ text_size n }
    ensures { out.new ≡ strings_text n (rows (record {
      n = n;
      signs = signs.now;
      z = z.now;
      x = x.now;
    })) }
{
    let mut at = 0;
    for j in 0..n {
        at = put_string(n, signs[j], z[j], x[j], at, out);
    }
}
