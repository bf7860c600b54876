// The sign of a row multiplied into another, where signs are relative to the rows' numbers of Y: a product of commuting
// rows then needs one parity.
ghost use Rattle.std.specs.Prelude.{◌&&◌, false, ◌≡◌, ℕ, ◌<◌, eqb};
ghost use Rattle.std.specs.Int.Bits.{bit_xor};
ghost use Rattle.std.specs.Int.Count.{ones};
ghost use Rattle.pauli.specs.Pauli.{anticommute, i⁰, minus, mul, row};
ghost use Rattle.record_reduction.specs.internal.Relative.{half_y};
ghost use Rattle.words.specs.Bits.{◌⊕◌, bit, is_odd};

use words::{count, dot_product};

// The relative sign of the product of the letters of two rows that commute, as a word: minus where its ones are odd in
// number. Where the second row has an odd number of Y, those of the first are counted too.
pub fn minus_word(z: u64, x: u64, z2: u64, x2: u64) -> u64
    requires { anticommute 64 (row i⁰ z x) (row i⁰ z2 x2) ≡ false }
    ensures { (mul 64 (row i⁰ z x) (row i⁰ z2 x2)).phase
        ≡ minus (((is_odd (ones result) ⊕ half_y z x) ⊕ half_y z2 x2) ⊕ half_y (bit_xor z z2) (bit_xor x x2)) }
{
    if dot_product(z2, x2) {
        z & (x2 ^ x)
    } else {
        z & x2
    }
}

// The word of signs, that of row j flipped where the ones of a word are odd in number.
pub fn flip_odd(signs: u64, j: usize, word: u64) -> u64
    requires { j < 64 }
    ensures { (k : ℕ) → bit result k ≡ bit signs k ⊕ (eqb k j && is_odd (ones word)) }
{
    signs ^ ((count(word) % 2) << j)
}
