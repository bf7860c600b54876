// The rows of a text of Pauli strings that has the form, read into arrays.
ghost use Rattle.std.specs.Prelude.{true, ◌≡◌, ◌*◌, ◌+◌, ◌-◌, ◌/◌, ◌<◌, ◌^◌, ◌≤◌, get_or, length, take};
ghost use Rattle.pauli.specs.Pauli.{x_bit, z_bit};
ghost use Rattle.stabilizer.specs.Lists.{list_of};
ghost use Rattle.text.specs.Reading.{byte_at, is_letter, letter_of, row_of};
ghost use Rattle.text.specs.Strings.{text_size};
ghost use Rattle.text_strings.specs.internal.Generators.{LettersFit, LinesFit, both_words, generator_in, letters_from};
ghost use Rattle.words.specs.Bits.{digit};

use buffers::sign_digit;
use pauli::Generator;

// The z bit of a letter at place 0, its x bit at place 32: X is 88, Y is 89, Z is 90, which leave 24, 25 and 26.
fn letter_bits(b: u8) -> u64
    requires { is_letter b ≡ true }
    ensures { result ≡ both_words (digit (z_bit (letter_of b))) (digit (x_bit (letter_of b))) }
{
    (0x0300_0000_0600_0000u64 >> (b % 64)) & 0x1_0000_0001
}

// Words with one more letter at their low ends.
fn more_letters(words: u64, b: u8) -> u64
    requires { (is_letter b ≡ true) × (2 * words + 4294967297 < 2 ^ 64) }
    ensures { result ≡ 2 * words + both_words (digit (z_bit (letter_of b))) (digit (x_bit (letter_of b))) }
{
    2 * words + letter_bits(b)
}

// The letter of an upper half that a lower half has no place for.
fn odd_letter(text: &[u8], from: usize, n: usize) -> u64
    requires { (from + (n + 2) ≤ length text.now) × LettersFit text.now from n }
    ensures { result ≡ letters_from text.now (from + n / 2) (n - n / 2) (n / 2) }
{
    if n % 2 == 1 {
        letter_bits(text[from + n])
    } else {
        0
    }
}

// A word of two halves.
fn joined(low: u64, high: u64, half: usize) -> u64
    requires { (half ≤ 32) × (high < 2 ^ 32) × (low + high * 2 ^ half < 2 ^ 64) }
    ensures { result ≡ low + high * 2 ^ half }
{
    low + (high << half)
}

// The row of the line of n letters that starts at a place: both halves of the letters at once, the last letters first.
fn string_row(text: &[u8], from: usize, n: usize) -> Generator
    requires { (n ≤ 64) × (from + (n + 2) ≤ length text.now) × LettersFit text.now from n }
    ensures { result ≡ generator_in n (row_of (λ c. get_or text.now (from + c) 0)) }
{
    let half = n / 2;
    let mut low = 0;
    let mut high = odd_letter(text, from, n);
    for q in (0..half).rev() {
        low = more_letters(low, text[from + (q + 1)]);
        high = more_letters(high, text[from + (half + (q + 1))]);
    }
    Generator {
        minus: text[from] == b'-',
        z: joined(low % 0x1_0000_0000, high % 0x1_0000_0000, half),
        x: joined(low / 0x1_0000_0000, high / 0x1_0000_0000, half),
    }
}

// A generator list at the start of three arrays.
#[derive(Drop)]
pub struct ReadList {
    pub signs: [u8; 64],
    pub z: [u64; 64],
    pub x: [u64; 64],
}

// The rows of the n lines of a text.
pub fn read_rows(text: &[u8], n: usize) -> ReadList
    requires { (n ≤ 64) × (length text.now ≡ text_size n) × LinesFit text.now n }
    ensures signs_value { take n result.signs ≡ (list_of n (λ j. row_of (byte_at n text.now j))).signs }
    ensures z_value { take n result.z ≡ (list_of n (λ j. row_of (byte_at n text.now j))).z }
    ensures x_value { take n result.x ≡ (list_of n (λ j. row_of (byte_at n text.now j))).x }
{
    let mut signs = [0u8; 64];
    let mut z = [0u64; 64];
    let mut x = [0u64; 64];
    let mut from = 0;
    for j in 0..n {
        let row = string_row(text, from, n);
        signs[j] = sign_digit(row.minus);
        z[j] = row.z;
        x[j] = row.x;
        from += n + 2;
    }
    ReadList { signs, z, x }
}
