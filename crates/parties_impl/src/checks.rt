// The lines of the refusals that speak of one party's places in a store of eight.
ghost use Rattle.buffers.specs.internal.Numbers.{number_of};
ghost use Rattle.std.specs.Prelude.{false, [], ◌≡◌, length};
ghost use Rattle.buffers.specs.Refusals.{first_fitting};
ghost use Rattle.parties.specs.PartyStores.{held_out, other_count, own_lines, own_places};
ghost use Rattle.parties.specs.Masks.{in_party};
ghost use Rattle.words.specs.Bits.{bit};
ghost use Rattle.parties_impl.specs.internal.PlacesNumber.{places_number};

use crate::masks::{own_word, reaches_out};
use buffers::refusals::Refusal;
use store_impl::checks::{store_refusal, wrong_lengths};
use store_impl::places::word_at;

// Line 2: whether a state held in the party's places has another n than 64; a party above 1 has no place.
fn other_count(party: u8, heads: &[u64]) -> bool
    ensures { result ≡ other_count (own_places party (record {
      heads = heads.now;
      neighbours = [];
      codes = [];
    })) }
{
    if 1 < party {
        return false;
    }
    let at = 12 * (party as usize);
    for i in 0..4 {
        let n = word_at(heads, at + 3 * i);
        if (n != 0) & (n != 64) {
            return true;
        }
    }
    false
}

// Line 7: whether a state held in four places has a neighbour outside the word `own`.
fn held_out(own: u64, heads: &[u64], neighbours: &[u64]) -> bool
    requires codes_value { other_count (record { heads = heads.now; neighbours = neighbours.now; codes = [] }) ≡ false }
    requires neighbours_len { length neighbours.now ≡ 256 }
    ensures { result ≡ held_out (bit own) (record {
      heads = heads.now;
      neighbours = neighbours.now;
      codes = [];
    }) }
{
    for i in 0..4 {
        let at = 64 * i;
        let end = at + 64;
        if (word_at(heads, 3 * i) != 0) & reaches_out(own, &neighbours[at..end]) {
            return true;
        }
    }
    false
}

// The first line of a party's four places that holds; `Ok` where none does.
fn places_refusal(own: u64, heads: &[u64], neighbours: &[u64], codes: &[u8]) -> Result<(), Refusal>
    requires codes_value { other_count (record { heads = heads.now; neighbours = neighbours.now; codes = [] }) ≡ false }
    requires neighbours_len { length neighbours.now ≡ 256 }
    ensures { number_of result ≡ places_number (bit own) (record {
      heads = heads.now;
      neighbours = neighbours.now;
      codes = codes.now;
    }) }
{
    store_refusal(4, heads, neighbours, codes, false)?;
    if held_out(own, heads, neighbours) {
        Err(Refusal::Graph)
    } else {
        Ok(())
    }
}

// The first line that holds of the store as party `party` looks at it; `Ok` where none does.
pub fn own_refusal(
    word: u64,
    party: u8,
    heads: &[u64],
    neighbours: &[u64],
    codes: &[u8],
) -> Result<(), Refusal>
    ensures { number_of result ≡ first_fitting (own_lines (in_party word party) party (record {
      heads = heads.now;
      neighbours = neighbours.now;
      codes = codes.now;
    })) }
{
    if other_count(party, heads) {
        return Err(Refusal::Count);
    }
    if wrong_lengths(8, heads, neighbours, codes) {
        return Err(Refusal::Length);
    }
    if 1 < party {
        return Ok(());
    }
    let head = 12 * (party as usize);
    let at = 256 * (party as usize);
    places_refusal(
        own_word(word, party),
        &heads[head..head + 12],
        &neighbours[at..at + 256],
        &codes[at..at + 256],
    )
}
