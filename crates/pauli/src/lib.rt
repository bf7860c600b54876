// Rows of the code: a product is xor on the words and a count of ones for the power of i; so is commutation.
#![tactic(auto)]

ghost use Rattle.std.specs.Prelude.{false, ◌≡◌, ◌<◌};
ghost use Rattle.pauli.specs.Pauli.{◌+ᵖ◌, anticommute, exponent, i⁰, letter, minus, mul};
ghost use Rattle.pauli.specs.Pauli.{power, row, x_bit, z_bit};
ghost use Rattle.pauli.specs.internal.Rows.{pauli_of};

use words::{count, odd};

// The letter at a place: of the pair (z, x), 00 is I, 01 is X, 10 is Z, 11 is Y.
#[derive(Clone, Copy, PartialEq, Eq)]
pub enum Letter {
    I,
    X,
    Y,
    Z,
}

pub fn letter_of(z: bool, x: bool) -> Letter
    ensures { result ≡ letter z x }
{
    match (z, x) {
        (false, false) => Letter::I,
        (false, true) => Letter::X,
        (true, false) => Letter::Z,
        (true, true) => Letter::Y,
    }
}

pub fn z_bit(l: Letter) -> bool
    ensures { result ≡ z_bit l }
{
    matches!(l, Letter::Y | Letter::Z)
}

pub fn x_bit(l: Letter) -> bool
    ensures { result ≡ x_bit l }
{
    matches!(l, Letter::X | Letter::Y)
}

// Whether two generators fail to commute: the places where both act and differ are odd in number.
pub fn clashes(z: u64, x: u64, z2: u64, x2: u64) -> bool
    ensures { result ≡ anticommute 64 (row i⁰ z x) (row i⁰ z2 x2) }
{
    odd((z & x2) ^ (x & z2))
}

// The power of i in the product of the letters of two rows, from 0 to 3.
pub fn letters_phase(z: u64, x: u64, z2: u64, x2: u64) -> u64
    ensures { (result ≡ exponent (mul 64 (row i⁰ z x) (row i⁰ z2 x2)).phase) × (result < 4) }
{
    let clash = (z & x2) ^ (x & z2);
    let back = ((x ^ x2) ^ (z ^ z2) ^ (x & z2)) & clash;
    (count(clash) + 2 * count(back)) % 4
}

// The sign of the product of the letters of two rows that commute; true means minus.
pub fn letters_minus(z: u64, x: u64, z2: u64, x2: u64) -> bool
    requires { anticommute 64 (row i⁰ z x) (row i⁰ z2 x2) ≡ false }
    ensures { (mul 64 (row i⁰ z x) (row i⁰ z2 x2)).phase ≡ minus result }
{
    letters_phase(z, x, z2, x2) == 2
}

// Three powers of i multiplied, from 0 to 3.
fn sum_phase(a: u64, b: u64, c: u64) -> u64
    ensures { (power result ≡ (power a +ᵖ power b) +ᵖ power c) × (result < 4) }
{
    ((a % 4 + b % 4) + c % 4) % 4
}

// A generator: a sign bit (true means minus), a z word and an x word.
#[derive(Clone, Copy)]
pub struct Generator {
    pub minus: bool,
    pub z: u64,
    pub x: u64,
}

// A row: i to the power phase, times the letters of two words.
#[derive(Clone, Copy)]
pub struct Row {
    pub phase: u64,
    pub z: u64,
    pub x: u64,
}

impl Row {
    // The product of two rows, its phase from 0 to 3.
    pub fn times(self, other: Row) -> Row
        ensures { (pauli_of result ≡ mul 64 (pauli_of self) (pauli_of other)) × (result.phase < 4) }
    {
        let letters = letters_phase(self.z, self.x, other.z, other.x);
        let phase = sum_phase(self.phase, other.phase, letters);
        Row {
            phase,
            z: self.z ^ other.z,
            x: self.x ^ other.x,
        }
    }
}
