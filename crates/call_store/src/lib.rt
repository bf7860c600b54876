// The public calls on a store of eight named states.
#![tactic(auto)]

ghost use Rattle.buffers.specs.internal.Numbers.{number_of};
ghost use Rattle.std.specs.Prelude.{◌≡◌, false, ◌||◌};
ghost use Rattle.buffers.specs.Refusals.{first_fitting};
ghost use Rattle.buffers.specs.Calls.{Call};
ghost use Rattle.store.specs.StoreLines.{holds_line, of_record, record_tests, store_lines};
ghost use Rattle.calls.specs.Stores.{forget_call, return_call, save_call};
ghost use Rattle.operations.specs.Used.{used_record};

use buffers::earliest::earlier_refusal;
use buffers::other_than;
use buffers::refusals::Refusal;
use operations_checks::used_refusal;
use store_impl::checks::store_refusal;
use store_impl::copies::{put_head, put_record, take_record};
use store_impl::places::{find, place_for, word_at};

// The first line of the record or of the store that holds; `Ok` where none does.
fn save_refusal(
    n: u64,
    neighbours: &[u64],
    codes: &[u8],
    used: u64,
    heads: &[u64],
    held_neighbours: &[u64],
    held_codes: &[u8],
) -> Result<(), Refusal>
    ensures { number_of result ≡ first_fitting (record_tests (λ m. of_record (used_record n neighbours.now
        codes.now used) m || holds_line m (store_lines 8 (record {
          heads = heads.now;
          neighbours = held_neighbours.now;
          codes = held_codes.now;
        }) false))) }
{
    let own = used_refusal(n, neighbours, codes, used, 0, false, false);
    let others = store_refusal(8, heads, held_neighbours, held_codes, false);
    earlier_refusal(own, others)
}

// The record saved under the name: at its place, else at the smallest free one.
pub fn save(
    n: u64,
    neighbours: &[u64],
    codes: &[u8],
    used: u64,
    name: u64,
    heads: &mut [u64],
    held_neighbours: &mut [u64],
    held_codes: &mut [u8],
) -> Result<(), Refusal>
    ensures { Call (save_call (used_record n neighbours.now codes.now used) name (record {
      heads = heads.old;
      neighbours = held_neighbours.old;
      codes = held_codes.old;
    }) heads.new held_neighbours.new held_codes.new) (number_of result) }
{
    save_refusal(
        n,
        neighbours,
        codes,
        used,
        heads,
        held_neighbours,
        held_codes,
    )?;
    let Some(place) = place_for(8, heads, name) else {
        return Err(Refusal::Full);
    };
    put_head(place, n, name, used, heads);
    put_record(place, neighbours, codes, held_neighbours, held_codes);
    Ok(())
}

// The record held under the name, brought back into buffers of 64 places.
pub fn return_to(
    name: u64,
    heads: &[u64],
    held_neighbours: &[u64],
    held_codes: &[u8],
    n: &mut u64,
    neighbours: &mut [u64],
    codes: &mut [u8],
    used: &mut u64,
) -> Result<(), Refusal>
    ensures { Call (return_call name (record {
      heads = heads.now;
      neighbours = held_neighbours.now;
      codes = held_codes.now;
    }) n.old neighbours.old codes.old used.old
        n.new neighbours.new codes.new used.new) (number_of result) }
{
    let others = other_than(neighbours.len(), 64) | other_than(codes.len(), 64);
    store_refusal(8, heads, held_neighbours, held_codes, others)?;
    let Some(place) = find(8, heads, name) else {
        return Err(Refusal::NotHeld);
    };
    let count = word_at(heads, 3 * place);
    take_record(
        place,
        count as usize,
        held_neighbours,
        held_codes,
        neighbours,
        codes,
    );
    *n = count;
    *used = word_at(heads, 3 * place + 2);
    Ok(())
}

// The place of the name made free.
pub fn forget(
    name: u64,
    heads: &mut [u64],
    held_neighbours: &[u64],
    held_codes: &[u8],
) -> Result<(), Refusal>
    ensures { Call (forget_call name (record {
      heads = heads.old;
      neighbours = held_neighbours.now;
      codes = held_codes.now;
    }) heads.new) (number_of result) }
{
    store_refusal(8, heads, held_neighbours, held_codes, false)?;
    let Some(place) = find(8, heads, name) else {
        return Err(Refusal::NotHeld);
    };
    heads[3 * place] = 0;
    Ok(())
}
