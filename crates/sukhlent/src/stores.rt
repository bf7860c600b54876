// Named states, as C sees them: a store of eight places in three lent buffers.
ghost use Rattle.calls.specs.Stores.{forget_call, return_call, save_call};
ghost use Rattle.buffers.specs.Calls.{Call};
ghost use Rattle.operations.specs.Used.{used_record};

use buffers::refusals::number_of;

// The record saved under the name: at its place, else at the smallest free one.
#[unsafe(no_mangle)]
pub extern "C" fn sukhlent_save(
    n: u64,
    neighbours: &[u64],
    codes: &[u8],
    used: u64,
    name: u64,
    heads: &mut [u64],
    held_neighbours: &mut [u64],
    held_codes: &mut [u8],
) -> u8
    ensures { Call (save_call (used_record n neighbours.now codes.now used) name (record {
      heads = heads.entry.now;
      neighbours = held_neighbours.old;
      codes = held_codes.old;
    }) heads.exit.now held_neighbours.new held_codes.new) result }
{
    number_of(call_store::save(
        n,
        neighbours,
        codes,
        used,
        name,
        heads,
        held_neighbours,
        held_codes,
    ))
}

// The record held under the name, brought back into buffers of 64 places.
#[unsafe(no_mangle)]
pub extern "C" fn sukhlent_return(
    name: u64,
    heads: &[u64],
    held_neighbours: &[u64],
    held_codes: &[u8],
    n: &mut u64,
    neighbours: &mut [u64],
    codes: &mut [u8],
    used: &mut u64,
) -> u8
    ensures { Call (return_call name (record {
      heads = heads.entry.now;
      neighbours = held_neighbours.now;
      codes = held_codes.now;
    }) n.old neighbours.old codes.old used.old
        n.new neighbours.new codes.new used.new) result }
{
    number_of(call_store::return_to(
        name,
        heads,
        held_neighbours,
        held_codes,
        n,
        neighbours,
        codes,
        used,
    ))
}

// The place of the name made free.
#[unsafe(no_mangle)]
pub extern "C" fn sukhlent_forget(
    name: u64,
    heads: &mut [u64],
    held_neighbours: &[u64],
    held_codes: &[u8],
) -> u8
    ensures { Call (forget_call name (record {
      heads = heads.entry.now;
      neighbours = held_neighbours.now;
      codes = held_codes.now;
    }) heads.exit.now) result }
{
    number_of(call_store::forget(name, heads, held_neighbours, held_codes))
}
