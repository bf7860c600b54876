// One party's vertices of a record of 64 qubits: the word of its qubits, its vertices alone, and put back; edges that
// leave it.
ghost use Rattle.std.specs.Prelude.{◌&&◌, cond, [], ◌≡◌, ◌<◌, length};
ghost use Rattle.parties.specs.Masks.{crosses, in_party, masked, merged, reaches_out};
ghost use Rattle.words.specs.Bits.{bit, word_of};
ghost use Rattle.words.specs.Search.{some};
ghost use Rattle.operations.specs.Used.{used_record};

use words::{has, others};

// The word of the qubits of a party.
pub fn own_word(word: u64, party: u8) -> u64
    ensures { result ≡ word_of 64 (in_party word party) }
{
    if party == 1 { word } else { others(word) }
}

// a where the word has bit q, else b.
fn pick<T: Copy>(word: u64, q: usize, a: T, b: T) -> T
    requires { q < 64 }
    ensures { result ≡ cond (bit word q) a b }
{
    if has(word, q) { a } else { b }
}

// Copies a record of 64 qubits in which each vertex outside the word `own` stands alone in +Z.
pub fn mask(own: u64, neighbours: &[u64], codes: &[u8], words: &mut [u64], bytes: &mut [u8])
    requires neighbours_len { (length neighbours.now ≡ 64) × (length codes.now ≡ 64) }
    requires words_len { (length words.old ≡ 64) × (length bytes.old ≡ 64) }
    ensures { (words.new ≡ (masked (bit own) (used_record 64 neighbours.now
        codes.now 0)).held.neighbours) × (bytes.new ≡ (masked (bit own) (used_record 64
        neighbours.now codes.now 0)).held.codes) }
{
    for q in 0..64 {
        words[q] = pick(own, q, neighbours[q], 0);
        bytes[q] = pick(own, q, codes[q], 8);
    }
}

// Puts the vertices of the word `own` into a record of 64 qubits; the others stay.
pub fn merge(own: u64, words: &[u64], bytes: &[u8], neighbours: &mut [u64], codes: &mut [u8])
    requires words_len { (length words.now ≡ 64) × (length bytes.now ≡ 64) }
    requires neighbours_len { (length neighbours.old ≡ 64) × (length codes.old ≡ 64) }
    ensures { (neighbours.new ≡ (merged (bit own) (used_record 64 words.now
        bytes.now 0) (used_record 64 neighbours.old codes.old 0)).held.neighbours) ×
        (codes.new ≡ (merged (bit own) (used_record 64 words.now bytes.now 0)
        (used_record 64 neighbours.old codes.old 0)).held.codes) }
{
    for q in 0..64 {
        neighbours[q] = pick(own, q, words[q], neighbours[q]);
        codes[q] = pick(own, q, bytes[q], codes[q]);
    }
}

// The used qubits of the word `own`.
pub fn mask_used(own: u64, used: u64) -> u64
    ensures { result ≡ word_of 64 (λ q. bit own q && bit used q) }
{
    own & used
}

// The used qubits `new` in the word `own`, and `used` outside it.
pub fn merge_used(own: u64, new: u64, used: u64) -> u64
    ensures { result ≡ word_of 64 (λ q. cond (bit own q) (bit new q) (bit used q)) }
{
    (own & new) | (others(own) & used)
}

// Whether two words have a bit in common.
fn meet(a: u64, b: u64) -> bool
    ensures { result ≡ some 64 (λ k. bit a k && bit b k) }
{
    a & b != 0
}

// Whether a record of 64 qubits has an edge between the parties.
pub fn crosses(word: u64, neighbours: &[u64]) -> bool
    requires { length neighbours.now ≡ 64 }
    ensures { result ≡ crosses word (used_record 64 neighbours.now [] 0) }
{
    let other = others(word);
    let mut found = false;
    for j in 0..64 {
        found |= meet(neighbours[j], pick(word, j, other, word));
    }
    found
}

// Whether some vertex of a record of 64 qubits has a neighbour outside the word `own`.
pub fn reaches_out(own: u64, neighbours: &[u64]) -> bool
    requires { length neighbours.now ≡ 64 }
    ensures { result ≡ reaches_out (bit own) (used_record 64 neighbours.now [] 0) }
{
    let outside = others(own);
    let mut found = false;
    for &row in neighbours {
        found |= meet(row, outside);
    }
    found
}
