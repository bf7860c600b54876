// Whether the generators of a list are independent, signs dropped: each row in turn is added to the later rows that
// have one of its bits, and none of them may become zero.
ghost use Rattle.std.specs.Prelude.{cond, not, ◌≡◌, ℕ, ◌<◌, ◌≤◌, get_or, length};
ghost use Rattle.pauli.specs.Pauli.{i⁰, row};
ghost use Rattle.stabilizer.specs.Groups.{Within};
ghost use Rattle.stabilizer.specs.Lists.{dependent};
ghost use Rattle.stabilizer_impl.specs.internal.Additions.{Added};
ghost use Rattle.words.specs.Bits.{bit};

use buffers::arrays::copied_words;
use words::smallest;

// The x word of a row, or its z word.
fn chosen_word(in_x: bool, z: u64, x: u64) -> u64
    ensures { result ≡ cond in_x x z }
{
    if in_x { x } else { z }
}

// The word `by` where w has bit i, else 0: no branch in the compiled code.
fn by_bit(w: u64, i: usize, by: u64) -> u64
    requires { i < 64 }
    ensures { result ≡ cond (bit w i) by 0 }
{
    (((w >> i) & 1) * u64::MAX) & by
}

// Row k added to each later row below n that has bit i in its x word, or in its z word.
fn add_to_later(z: &mut [u64; 64], x: &mut [u64; 64], n: usize, k: usize, in_x: bool, i: usize)
    requires z_len { (length z.old ≡ 64) × (length x.old ≡ 64) }
    requires n_bound { (n ≤ 64) × (k < n) × (i < 64) }
    ensures { Added n k in_x i z.old x.old z.new x.new }
{
    let by_z = z[k];
    let by_x = x[k];
    for j in k + 1..n {
        let row_z = z[j];
        let row_x = x[j];
        let word = chosen_word(in_x, row_z, row_x);
        z[j] = row_z ^ by_bit(word, i, by_z);
        x[j] = row_x ^ by_bit(word, i, by_x);
    }
}

// Whether n rows are independent. None has a bit at or above n.
pub fn independent(n: usize, z: &[u64], x: &[u64]) -> bool
    requires n_bound { (n ≤ 64) × (length z.now ≡ n) × (length x.now ≡ n) }
    requires by_index { (j : ℕ) → j < n → Within n (row i⁰ (get_or z.now j 0) (get_or x.now j 0)) }
    ensures { result ≡ not (dependent n (λ j. row i⁰ (get_or z.now j 0) (get_or x.now j 0))) }
{
    let mut own_z = copied_words(z);
    let mut own_x = copied_words(x);
    for k in 0..n {
        let row_x = own_x[k];
        let in_x = row_x != 0;
        let word = chosen_word(in_x, own_z[k], row_x);
        if word == 0 {
            return false;
        }
        add_to_later(&mut own_z, &mut own_x, n, k, in_x, smallest(word));
    }
    true
}
