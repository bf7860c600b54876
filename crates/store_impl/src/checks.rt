// The lines of the refusals that speak of a store.
ghost use Rattle.buffers.specs.internal.Numbers.{number_of};
ghost use Rattle.std.specs.Prelude.{cond, false, not, ◌≡◌, ◌*◌, ◌≤◌, eqb, length, take};
ghost use Rattle.buffers.specs.Refusals.{first_fitting};
ghost use Rattle.buffers.specs.internal.Earlier.{earliest_of};
ghost use Rattle.store.specs.Places.{named_twice};
ghost use Rattle.store.specs.StoreLines.{store_lengths, store_lines};
ghost use Rattle.store.specs.internal.StoreNumbers.{large_count, number_at};
ghost use Rattle.operations.specs.Used.{used_lines, used_record};

use crate::places::{find, word_at};
use buffers::earliest::earlier_refusal;
use buffers::other_than;
use buffers::refusals::Refusal;
use operations_checks::used_refusal;

// Line 2: whether some of the first k places has an n above 64.
fn large_count(k: usize, heads: &[u64]) -> bool
    requires { k ≤ 8 }
    ensures { result ≡ large_count k heads.now }
{
    for i in 0..k {
        if 64 < word_at(heads, 3 * i) {
            return true;
        }
    }
    false
}

// Line 4: whether a buffer of the store has not its length.
pub fn wrong_lengths(k: usize, heads: &[u64], neighbours: &[u64], codes: &[u8]) -> bool
    requires { k ≤ 8 }
    ensures { result ≡ store_lengths k (record {
      heads = heads.now;
      neighbours = neighbours.now;
      codes = codes.now;
    }) }
{
    let words = (3 * k) as u64;
    let numbers = (64 * k) as u64;
    other_than(heads.len(), words)
        | (other_than(neighbours.len(), numbers) | other_than(codes.len(), numbers))
}

// The number of the record in the first n of 64 places; 0 where n is 0.
fn held_number(n: u64, used: u64, neighbours: &[u64], codes: &[u8]) -> Result<(), Refusal>
    requires { (n ≤ 64) × (length neighbours.now ≡ 64) × (length codes.now ≡ 64) }
    ensures { number_of result ≡ cond (not (eqb n 0))
        (first_fitting (used_lines (used_record n (take n neighbours.now) (take n codes.now) used)
        false false false)) 0 }
{
    if n == 0 {
        return Ok(());
    }
    let count = n as usize;
    used_refusal(
        n,
        &neighbours[..count],
        &codes[..count],
        used,
        0,
        false,
        false,
    )
}

// The first number of the records held in the first k places.
fn store_number(k: usize, heads: &[u64], neighbours: &[u64], codes: &[u8]) -> Result<(), Refusal>
    requires k_bound { (k ≤ 8) × (large_count k heads.now ≡ false) }
    requires neighbours_len { (length neighbours.now ≡ 64 * k) × (length codes.now ≡ 64 * k) }
    ensures { number_of result ≡ earliest_of k (number_at (record {
      heads = heads.now;
      neighbours = neighbours.now;
      codes = codes.now;
    })) }
{
    let mut first = Ok(());
    for i in 0..k {
        let n = word_at(heads, 3 * i);
        let used = word_at(heads, 3 * i + 2);
        let at = 64 * i;
        let end = at + 64;
        let here = held_number(n, used, &neighbours[at..end], &codes[at..end]);
        first = earlier_refusal(first, here);
    }
    first
}

// Line 7: whether some place, of the first k, has the name of a place before it.
fn named_twice(k: usize, heads: &[u64]) -> bool
    requires { k ≤ 8 }
    ensures { result ≡ named_twice k heads.now }
{
    for i in 0..k {
        let before = find(i, heads, word_at(heads, 3 * i + 1));
        if (word_at(heads, 3 * i) != 0) & before.is_some() {
            return true;
        }
    }
    false
}

// The first line of a store of k places that holds; `Ok` where none does. `others`: a further buffer of the call has a
// wrong length.
pub fn store_refusal(
    k: usize,
    heads: &[u64],
    neighbours: &[u64],
    codes: &[u8],
    others: bool,
) -> Result<(), Refusal>
    requires { k ≤ 8 }
    ensures { number_of result ≡ first_fitting (store_lines k (record {
      heads = heads.now;
      neighbours = neighbours.now;
      codes = codes.now;
    }) others) }
{
    if large_count(k, heads) {
        return Err(Refusal::Count);
    }
    if wrong_lengths(k, heads, neighbours, codes) | others {
        return Err(Refusal::Length);
    }
    store_number(k, heads, neighbours, codes)?;
    if named_twice(k, heads) {
        Err(Refusal::Graph)
    } else {
        Ok(())
    }
}
