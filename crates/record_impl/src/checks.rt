// The lines of the refusals that speak of a record.
ghost use Rattle.buffers.specs.internal.Numbers.{number_of};
ghost use Rattle.std.specs.Prelude.{◌&&◌, ◌≡◌, ℕ, ◌≤◌, ltb, get_or, length};
ghost use Rattle.buffers.specs.Refusals.{first_fitting, reaching};
ghost use Rattle.record.specs.Lent.{lent_record, not_simple, record_lengths, record_lines};
ghost use Rattle.words.specs.Bits.{◌⊕◌, bit};
ghost use Rattle.words.specs.Search.{some};
ghost use Rattle.record_impl.specs.internal.Copies.{Copied};
ghost use Rattle.record_impl.specs.internal.Looks.{Looked};

use buffers::refusals::Refusal;
use buffers::{bad_count, reaches, strays};
use words::mask;
use words::transposition::transpose;

// Line 4: one of the two buffers does not have n places.
fn record_lengths(n: usize, neighbours: &[u64], codes: &[u8]) -> bool
    ensures { result ≡ record_lengths (lent_record n neighbours.now codes.now) }
{
    (neighbours.len() != n) | (codes.len() != n)
}

// The first n words, copied into a square: answers the vertices that are their own neighbours.
fn square_of(n: usize, words: &[u64], rows: &mut [u64; 64]) -> u64
    requires { (n ≤ 64) × (length words.now ≡ n) × (length rows.old ≡ 64) }
    ensures copied { Copied n words.now rows.new }
    ensures by_index { (c : ℕ) → bit result c ≡ (ltb c n && bit (get_or words.now c 0) c) }
{
    let mut own = 0;
    let mut place = 1;
    for i in 0..n {
        let word = words[i];
        own |= word & place;
        rows[i] = word;
        place <<= 1;
    }
    own
}

// The columns at which one of the first n words differs from its row.
fn unequal(n: usize, words: &[u64], rows: &[u64; 64]) -> u64
    requires { (n ≤ 64) × (length words.now ≡ n) }
    ensures { (c : ℕ) → bit result c ≡ some n (λ i. bit (get_or words.now i 0) c
        ⊕ bit (get_or rows.now i 0) c) }
{
    let mut all = 0;
    for i in 0..n {
        all |= words[i] ^ rows[i];
    }
    all
}

// Line 7: the graph is not simple. Its square of bits is compared with the transpose.
pub fn not_simple(n: usize, neighbours: &[u64]) -> bool
    requires { (1 ≤ n) × (n ≤ 64) × (length neighbours.now ≡ n) }
    ensures { result ≡ not_simple n (λ j. bit (get_or neighbours.now j 0)) }
{
    let mut rows = [0; 64];
    let own = square_of(n, neighbours, &mut rows);
    transpose(&mut rows, n);
    (own | unequal(n, neighbours, &rows)) & mask(n) != 0
}

// Line 6: whether a code is 24 or more, where the caller has looked at the codes as it says.
fn over_known(codes: &[u8], over: Option<bool>) -> bool
    requires { Looked over codes.now }
    ensures { result ≡ reaching 24 codes.now }
{
    match over {
        Some(known) => known,
        None => reaches(codes, 24),
    }
}

// The first line of a record that holds; `Ok` where none does. `others`: a further buffer of the call has a wrong
// length; `over`: whether a code is 24 or more, where the caller has looked; `six`: line 6 holds of a further
// argument.
pub fn record_number(
    n: u64,
    neighbours: &[u64],
    codes: &[u8],
    others: bool,
    over: Option<bool>,
    six: bool,
) -> Result<(), Refusal>
    requires { Looked over codes.now }
    ensures { number_of result ≡ first_fitting (record_lines (lent_record n neighbours.now codes.now)
        others six) }
{
    if bad_count(n) {
        return Err(Refusal::Count);
    }
    let count = n as usize;
    if record_lengths(count, neighbours, codes) | others {
        return Err(Refusal::Length);
    }
    if strays(neighbours, count) {
        return Err(Refusal::Stray);
    }
    if over_known(codes, over) | six {
        return Err(Refusal::Value);
    }
    if not_simple(count, neighbours) {
        return Err(Refusal::Graph);
    }
    Ok(())
}

// The same, where the codes have not been looked at.
pub fn record_refusal(
    n: u64,
    neighbours: &[u64],
    codes: &[u8],
    others: bool,
    six: bool,
) -> Result<(), Refusal>
    ensures { number_of result ≡ first_fitting (record_lines (lent_record n neighbours.now codes.now)
        others six) }
{
    record_number(n, neighbours, codes, others, None, six)
}
