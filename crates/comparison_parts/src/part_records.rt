// The record of a part: its vertices numbered in rising order, and their neighbour words and codes in these numbers.
ghost use Rattle.std.specs.Prelude.{◌≡◌, ℕ, ◌<◌, ◌≤◌, get_or, length};
ghost use Rattle.comparison.specs.internal.Numbered.{Numbers};
ghost use Rattle.words.specs.Bits.{bit};
ghost use Rattle.comparison_parts.specs.internal.Listed.{part_codes, renumbered, part_words};

use words::{flip, flip_where, has, smallest};

// The vertices of a set, in rising order, and how many there are: an array, since there is no heap, of which callees take
// the part that is used.
#[derive(Clone, Copy)]
pub struct Places {
    pub count: usize,
    pub at: [u8; 64],
}

pub fn vertices(component: u64) -> Places
    ensures { (result.count ≤ 64) × Numbers 64 (bit component) result.count (λ i. get_or result.at i 0) }
{
    let mut at = [0u8; 64];
    let mut k = 0;
    // no `for`: over the bits of a word, from the smallest
    let mut rest = component;
    while rest != 0 {
        let q = smallest(rest);
        at[k] = q as u8;
        k += 1;
        rest = flip(rest, q);
    }
    Places { count: k, at }
}

// The bits of a word at the numbered vertices.
fn compress(w: u64, at: &[u8]) -> u64
    requires { (length at.now ≤ 64) × ((i : ℕ) → i < length at.now → get_or at.now i 0 < 64) }
    ensures { result ≡ renumbered (length at.now) at.now w }
{
    let mut bits = 0;
    for (i, &v) in at.iter().enumerate() {
        bits = flip_where(bits, i, has(w, v as usize));
    }
    bits
}

// The record of the part, with a place of the answer for each of its vertices.
pub fn extract(neighbours: &[u64], codes: &[u8], at: &[u8], words: &mut [u64], numbers: &mut [u8])
    requires at_len_bound { length at.now ≤ 64 }
    requires words_len { (length words.old ≡ length at.now) × (length numbers.old ≡ length at.now) }
    requires neighbours_len_bound { (length neighbours.now ≤ 64) × (length codes.now ≡ length neighbours.now)
        × ((i : ℕ) → i < length at.now → get_or at.now i 0 < length neighbours.now) }
    ensures { (words.new ≡ part_words (length at.now) at.now neighbours.now)
        × (numbers.new ≡ part_codes (length at.now) at.now codes.now) }
{
    for (i, &v) in at.iter().enumerate() {
        words[i] = compress(neighbours[v as usize], at);
        numbers[i] = codes[v as usize];
    }
}
