// The public calls of a party on its four named states.
ghost use Rattle.buffers.specs.internal.Numbers.{number_of};
ghost use Rattle.std.specs.Prelude.{cond, ◌||◌, ◌≡◌, ltb};
ghost use Rattle.buffers.specs.Refusals.{first_fitting};
ghost use Rattle.buffers.specs.Calls.{Call};
ghost use Rattle.parties.specs.PartyStores.{own_lines, shared_lines};
ghost use Rattle.parties.specs.Masks.{in_party};
ghost use Rattle.store.specs.StoreLines.{holds_line, of_record, record_tests};
ghost use Rattle.calls.specs.PartyStores.{party_forget_call, party_return_call, party_save_call};
ghost use Rattle.operations.specs.Used.{used_record};

use buffers::earliest::earlier_refusal;
use buffers::refusals::Refusal;
use operations_checks::used_refusal;
use parties_impl::checks::own_refusal;
use parties_impl::masks::{crosses, merge_used, own_word};
use parties_impl::places::{own_find, own_place_for, put_masked, take_merged};
use store_impl::places::word_at;

// Line 6: refuses a party above 1.
fn party_number(party: u8) -> Result<(), Refusal>
    ensures { number_of result ≡ cond (ltb 1 party) 6 0 }
{
    if 1 < party {
        Err(Refusal::Value)
    } else {
        Ok(())
    }
}

// The first line of the record or of the party's places that holds; `Ok` where none does.
fn both_refusal(
    n: u64,
    word: u64,
    party: u8,
    neighbours: &[u64],
    codes: &[u8],
    used: u64,
    heads: &[u64],
    held_neighbours: &[u64],
    held_codes: &[u8],
) -> Result<(), Refusal>
    ensures { number_of result ≡ first_fitting (record_tests (λ m. of_record (used_record n neighbours.now
        codes.now used) m || holds_line m (own_lines (in_party word party) party (record {
          heads = heads.now;
          neighbours = held_neighbours.now;
          codes = held_codes.now;
        })))) }
{
    let own = used_refusal(n, neighbours, codes, used, 0, false, false);
    let held = own_refusal(word, party, heads, held_neighbours, held_codes);
    earlier_refusal(own, held)
}

// The first of the lines that save, return and forget share that holds; `Ok` where none does.
fn shared_refusal(
    n: u64,
    word: u64,
    party: u8,
    neighbours: &[u64],
    codes: &[u8],
    used: u64,
    heads: &[u64],
    held_neighbours: &[u64],
    held_codes: &[u8],
) -> Result<(), Refusal>
    ensures { number_of result ≡ first_fitting (shared_lines word party (used_record n neighbours.now
        codes.now used) (record {
          heads = heads.now;
          neighbours = held_neighbours.now;
          codes = held_codes.now;
        })) }
{
    if n != 64 {
        return Err(Refusal::Count);
    }
    let both = both_refusal(
        n,
        word,
        party,
        neighbours,
        codes,
        used,
        heads,
        held_neighbours,
        held_codes,
    );
    earlier_refusal(both, party_number(party))?;
    if crosses(word, neighbours) {
        Err(Refusal::OtherGroup)
    } else {
        Ok(())
    }
}

// The party's vertices saved under the name: at its place among the party's four, else at the smallest free one.
pub fn save(
    n: u64,
    word: u64,
    party: u8,
    neighbours: &[u64],
    codes: &[u8],
    used: u64,
    name: u64,
    heads: &mut [u64],
    held_neighbours: &mut [u64],
    held_codes: &mut [u8],
) -> Result<(), Refusal>
    ensures { Call (party_save_call word party (used_record n neighbours.now codes.now used)
        name (record {
          heads = heads.old;
          neighbours = held_neighbours.old;
          codes = held_codes.old;
        }) heads.new held_neighbours.new held_codes.new) (number_of result) }
{
    shared_refusal(
        n,
        word,
        party,
        neighbours,
        codes,
        used,
        heads,
        held_neighbours,
        held_codes,
    )?;
    let Some(place) = own_place_for(party, heads, name) else {
        return Err(Refusal::Full);
    };
    put_masked(
        4 * (party as usize) + place,
        own_word(word, party),
        neighbours,
        codes,
        used,
        name,
        heads,
        held_neighbours,
        held_codes,
    );
    Ok(())
}

// The party's vertices as they are held under the name, put back into the record; the others stay.
pub fn return_to(
    n: u64,
    word: u64,
    party: u8,
    neighbours: &mut [u64],
    codes: &mut [u8],
    used: &mut u64,
    name: u64,
    heads: &[u64],
    held_neighbours: &[u64],
    held_codes: &[u8],
) -> Result<(), Refusal>
    ensures { Call (party_return_call word party (used_record n neighbours.old codes.old
        used.old) name (record {
          heads = heads.now;
          neighbours = held_neighbours.now;
          codes = held_codes.now;
        }) neighbours.new codes.new used.new) (number_of result) }
{
    shared_refusal(
        n,
        word,
        party,
        neighbours,
        codes,
        *used,
        heads,
        held_neighbours,
        held_codes,
    )?;
    let Some(place) = own_find(party, heads, name) else {
        return Err(Refusal::NotHeld);
    };
    let at = 4 * (party as usize) + place;
    let own = own_word(word, party);
    take_merged(at, own, held_neighbours, held_codes, neighbours, codes);
    *used = merge_used(own, word_at(heads, 3 * at + 2), *used);
    Ok(())
}

// The party's place of the name made free.
pub fn forget(
    n: u64,
    word: u64,
    party: u8,
    neighbours: &[u64],
    codes: &[u8],
    used: u64,
    name: u64,
    heads: &mut [u64],
    held_neighbours: &[u64],
    held_codes: &[u8],
) -> Result<(), Refusal>
    ensures { Call (party_forget_call word party (used_record n neighbours.now codes.now
        used) name (record {
          heads = heads.old;
          neighbours = held_neighbours.now;
          codes = held_codes.now;
        }) heads.new) (number_of result) }
{
    shared_refusal(
        n,
        word,
        party,
        neighbours,
        codes,
        used,
        heads,
        held_neighbours,
        held_codes,
    )?;
    let Some(place) = own_find(party, heads, name) else {
        return Err(Refusal::NotHeld);
    };
    heads[3 * (4 * (party as usize) + place)] = 0;
    Ok(())
}
