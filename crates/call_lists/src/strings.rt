// The public calls that read and write texts of Pauli strings.
ghost use Rattle.buffers.specs.internal.Numbers.{number_of};
ghost use Rattle.std.specs.Prelude.{true, ◌≡◌};
ghost use Rattle.buffers.specs.Refusals.{first_fitting};
ghost use Rattle.calls.specs.Strings.{read_strings_call, write_strings_call};
ghost use Rattle.buffers.specs.Calls.{Call};
ghost use Rattle.text.specs.Reading.{formed_lines, line_count, string_form};

use crate::check;
use buffers::refusals::Refusal;
use buffers::{bad_count, copy_first, other_than};
use text_strings::form::{letter_count, string_form};
use text_strings::printing::put_strings;
use text_strings::scanning::read_rows;

// The first of lines 1, 2 and 4 that holds of a text, which has n lines if it has the form, and the buffers for its
// list; `Ok` where none does.
fn formed_refusal(text: &[u8], n: usize, signs: &[u8], z: &[u64], x: &[u64]) -> Result<(), Refusal>
    requires { string_form text.now ≡ true → n ≡ line_count text.now }
    ensures { number_of result ≡ first_fitting (formed_lines
        text.now signs.now z.now x.now) }
{
    if !string_form(text, n) {
        return Err(Refusal::Form);
    }
    let lines = n as u64;
    if bad_count(lines) {
        return Err(Refusal::Count);
    }
    if other_than(signs.len(), lines) | (other_than(z.len(), lines) | other_than(x.len(), lines)) {
        return Err(Refusal::Length);
    }
    Ok(())
}

// The generator list of a text.
pub fn read_strings(
    text: &[u8],
    signs: &mut [u8],
    z: &mut [u64],
    x: &mut [u64],
) -> Result<(), Refusal>
    ensures { Call (read_strings_call text.now
        signs.old z.old x.old
        signs.new z.new x.new) (number_of result) }
{
    let n = letter_count(text);
    formed_refusal(text, n, signs, z, x)?;
    let list = read_rows(text, n);
    check(n as u64, &list.signs[..n], &list.z[..n], &list.x[..n])?;
    copy_first(&list.signs, signs);
    copy_first(&list.z, z);
    copy_first(&list.x, x);
    Ok(())
}

// The text of a generator list.
pub fn write_strings(
    n: u64,
    signs: &[u8],
    z: &[u64],
    x: &[u64],
    text: &mut [u8],
) -> Result<(), Refusal>
    ensures { Call (write_strings_call
        (record { n = n; signs = signs.now; z = z.now; x = x.now })
        text.old text.new) (number_of result) }
{
    if bad_count(n) {
        return Err(Refusal::Count);
    }
    if other_than(text.len(), n * (n + 2)) {
        return Err(Refusal::Length);
    }
    check(n, signs, z, x)?;
    put_strings(n as usize, signs, z, x, text);
    Ok(())
}
