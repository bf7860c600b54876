// Named states: what the request says of the calls on a store.
ghost use Rattle.claims.specs.Sentences.Stores.{ForgetSays, ReturnSays, SaveSays};
ghost use Rattle.operations.specs.Used.{used_record};

use crate::stores::{sukhlent_forget, sukhlent_return, sukhlent_save};

pub fn save_says(
    n: u64,
    neighbours: &[u64],
    codes: &[u8],
    used: u64,
    name: u64,
    heads: &mut [u64],
    held_neighbours: &mut [u64],
    held_codes: &mut [u8],
) -> u8
    ensures { SaveSays (used_record n neighbours.now codes.now used) name (record {
      heads = heads.entry.now;
      neighbours = held_neighbours.old;
      codes = held_codes.old;
    }) heads.exit.now held_neighbours.new held_codes.new result }
{
    sukhlent_save(
        n,
        neighbours,
        codes,
        used,
        name,
        heads,
        held_neighbours,
        held_codes,
    )
}

pub fn return_says(
    name: u64,
    heads: &[u64],
    held_neighbours: &[u64],
    held_codes: &[u8],
    n: &mut u64,
    neighbours: &mut [u64],
    codes: &mut [u8],
    used: &mut u64,
) -> u8
    ensures { ReturnSays name (record {
      heads = heads.entry.now;
      neighbours = held_neighbours.now;
      codes = held_codes.now;
    }) n.old neighbours.old codes.old used.old
        n.new neighbours.new codes.new used.new result }
{
    sukhlent_return(
        name,
        heads,
        held_neighbours,
        held_codes,
        n,
        neighbours,
        codes,
        used,
    )
}

pub fn forget_says(name: u64, heads: &mut [u64], held_neighbours: &[u64], held_codes: &[u8]) -> u8
    ensures { ForgetSays name (record {
      heads = heads.entry.now;
      neighbours = held_neighbours.now;
      codes = held_codes.now;
    }) heads.exit.now result }
{
    sukhlent_forget(name, heads, held_neighbours, held_codes)
}
