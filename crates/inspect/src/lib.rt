// The codes' tables and the arithmetic of rows, exported for tests. Not part of the engine's public calls.
#![tactic(auto)]

ghost use Rattle.std.specs.Prelude.{◌≡◌};
ghost use Rattle.inspect.specs.internal.Answers.{bits_answer, image_answer, inverse_answer, number, then_answer};
ghost use Rattle.pauli.specs.Pauli.{anticommute, exponent, i⁰, mul, row};

use clifford_impl::codes::Code;
use pauli::{clashes, letter_of, letters_phase, x_bit, z_bit};

// 4 × sign + 2z + x.
fn number_of(s: bool, z: bool, x: bool) -> u8
    ensures { result ≡ number s z x }
{
    4 * u8::from(s) + 2 * u8::from(z) + u8::from(x)
}

// First a, then b; 24 where one of them is not a code.
#[unsafe(no_mangle)]
pub extern "C" fn inspect_then(a: u8, b: u8) -> u8
    ensures { result ≡ then_answer a b }
{
    if 24 <= a {
        return 24;
    }
    if 24 <= b {
        return 24;
    }
    let c = Code { index: a }.then(Code { index: b });
    c.index
}

// The inverse of a; 24 where a is not a code.
#[unsafe(no_mangle)]
pub extern "C" fn inspect_inverse(a: u8) -> u8
    ensures { result ≡ inverse_answer a }
{
    if 24 <= a {
        return 24;
    }
    let c = Code { index: a }.inverse();
    c.index
}

// The image of the letter (z, x) under a, as 4 × sign + 2z + x; 8 where a is not a code.
#[unsafe(no_mangle)]
pub extern "C" fn inspect_image(a: u8, z: bool, x: bool) -> u8
    ensures { result ≡ image_answer a z x }
{
    if 24 <= a {
        return 8;
    }
    let image = Code { index: a }.image(letter_of(z, x));
    let letter = image.letter;
    number_of(image.minus, z_bit(letter), x_bit(letter))
}

// The bits C and D of a, as 2C + D; 8 where a is not a code.
#[unsafe(no_mangle)]
pub extern "C" fn inspect_bits(a: u8) -> u8
    ensures { result ≡ bits_answer a }
{
    if 24 <= a {
        return 8;
    }
    let c = Code { index: a }.c_bit();
    let d = Code { index: a }.d_bit();
    number_of(false, c, d)
}

// The power of i in the product of the letters of two rows.
#[unsafe(no_mangle)]
pub extern "C" fn inspect_phase(z: u64, x: u64, z2: u64, x2: u64) -> u64
    ensures { result ≡ exponent (mul 64 (row i⁰ z x) (row i⁰ z2 x2)).phase }
{
    letters_phase(z, x, z2, x2)
}

// Whether two rows fail to commute.
#[unsafe(no_mangle)]
pub extern "C" fn inspect_clashes(z: u64, x: u64, z2: u64, x2: u64) -> bool
    ensures { result ≡ anticommute 64 (row i⁰ z x) (row i⁰ z2 x2) }
{
    clashes(z, x, z2, x2)
}
