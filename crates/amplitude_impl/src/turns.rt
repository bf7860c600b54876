// Words of a record in its buffers: the vertices without a Hadamard, whether a word is supported, and its turns.
ghost use Rattle.std.specs.Prelude.{◌&&◌, ◌||◌, cond, not, true, ◌≡◌, ℕ, ◌<◌, ◌≤◌, get_or, length};
ghost use Rattle.amplitude.specs.internal.KeptTurns.{fits_at, kept_turns, unit_of};
ghost use Rattle.clifford.specs.Clifford.{bit_c, clifford_of};
ghost use Rattle.clifford.specs.Vectors.{codes_of};
ghost use Rattle.operations.specs.internal.InPlace.{Unrefused, record_in};
ghost use Rattle.pauli.specs.Pauli.{◌+ᵖ◌, exponent, i⁰, minus};
ghost use Rattle.record.specs.Lent.{held_record};
ghost use Rattle.words.specs.Bits.{◌⊕◌, bit, parity, same_bit, word_of};
ghost use Rattle.words.specs.Search.{every};

use clifford_impl::codes::Code;
use words::{dot_product, flip_where, has, single};

// Whether the places below j where both words have a 1 are odd in number.
fn dot_below(a: u64, b: u64, j: usize) -> bool
    requires { j < 64 }
    ensures { result ≡ parity j (λ q. bit a q && bit b q) }
{
    dot_product(a & (single(j) - 1), b)
}

// The equation of vertex j, with this neighbour word and this code: where it has a Hadamard (C = 1), its bit of y is
// the sign of its code and the bits of its smaller neighbours.
fn fits(word: u64, code: u8, y: u64, j: usize) -> bool
    requires { (j < 64) × (code < 24) }
    ensures { result ≡ (not (bit_c (clifford_of code)) || same_bit (bit y j)
        ((clifford_of code).sx ⊕ parity j (λ q. bit word q && bit y q))) }
{
    !Code { index: code }.c_bit() | (has(y, j) == ((code / 2 % 2 == 1) != dot_below(word, y, j)))
}

// Whether a word is supported: each equation holds.
pub fn supports(neighbours: &[u64], codes: &[u8], y: u64) -> bool
    requires { Unrefused (record_in neighbours.now codes.now) }
    ensures { result ≡ every (length neighbours.now)
        (fits_at (held_record (record_in neighbours.now codes.now)) y) }
{
    for j in 0..neighbours.len() {
        if !fits(neighbours[j], codes[j], y, j) {
            return false;
        }
    }
    true
}

// The vertices without a Hadamard.
pub fn kept(codes: &[u8]) -> u64
    requires { (length codes.now ≤ 64) × ((q : ℕ) → get_or codes.now q 0 < 24) }
    ensures { result ≡ word_of (length codes.now) (λ q. not (bit_c (codes_of codes.now q))) }
{
    let mut all = 0;
    for (i, &index) in codes.iter().enumerate() {
        all = flip_where(all, i, !Code { index }.c_bit());
    }
    all
}

// The power of i of vertex j in a word of vertices without a Hadamard, from 0 to 3: by its code, and a minus for each
// smaller neighbour in the word.
fn turns_of(word: u64, code: u8, chosen: u64, j: usize) -> u8
    requires { (j < 64) × (bit chosen j ≡ true → code < 8) }
    ensures { result ≡ exponent (cond (bit chosen j)
        (unit_of (clifford_of code) +ᵖ minus (parity j (λ q. bit word q && bit chosen q))) i⁰) }
{
    if !has(chosen, j) {
        return 0;
    }
    (code / 4 + 2 * (code / 2 % 2) + 2 * (dot_below(word, chosen, j) as u8)) % 4
}

// The turns of a word, from 0 to 3: those of its vertices without a Hadamard.
pub fn turns(neighbours: &[u64], codes: &[u8], y: u64) -> u8
    requires { Unrefused (record_in neighbours.now codes.now) }
    ensures { result ≡ exponent (kept_turns (length neighbours.now)
        (held_record (record_in neighbours.now codes.now)) (bit y)) }
{
    let chosen = kept(codes) & y;
    let mut sum = 0;
    for j in 0..neighbours.len() {
        sum = (sum + turns_of(neighbours[j], codes[j], chosen, j)) % 4;
    }
    sum
}
