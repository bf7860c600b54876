// One party's places in a store of eight: found by name, written and read.
ghost use Rattle.std.specs.Option.{IfSome};
ghost use Rattle.std.specs.Prelude.{◌≡◌, ◌<◌, ◌≤◌, length, unwrap_or};
ghost use Rattle.parties.specs.PartyStores.{own_heads};
ghost use Rattle.parties.specs.Masks.{masked, merged};
ghost use Rattle.record.specs.Lent.{LentRecord, lent_record};
ghost use Rattle.store.specs.Kept.{save_place, with_place};
ghost use Rattle.store.specs.Places.{Store, part_at, place_of};
ghost use Rattle.words.specs.Bits.{bit};
ghost use Rattle.operations.specs.Used.{used_record};

use crate::masks::{mask, mask_used, merge};
use store_impl::copies::put_head;
use store_impl::places::{find, place_for};

// The place, of the party's four, that holds a state under the name; `None` where none does.
pub fn own_find(party: u8, heads: &[u64], name: u64) -> Option<usize>
    requires { (party ≤ 1) × (length heads.now ≡ 24) }
    ensures place { unwrap_or result 4 ≡ place_of 4 (own_heads party heads.now) name }
    ensures within { IfSome result (λ i. i < 4) }
{
    let at = 12 * (party as usize); // the party's own names
    find(4, &heads[at..at + 12], name)
}

// The place, of the party's four, that a save takes; `None` where all hold other names.
pub fn own_place_for(party: u8, heads: &[u64], name: u64) -> Option<usize>
    requires { (party ≤ 1) × (length heads.now ≡ 24) }
    ensures place { unwrap_or result 4 ≡ save_place 4 (own_heads party heads.now) name }
    ensures within { IfSome result (λ i. i < 4) }
{
    let at = 12 * (party as usize);
    place_for(4, &heads[at..at + 12], name)
}

// The vertices of the word `own` alone, at place i of the store, under the name.
pub fn put_masked(
    i: usize,
    own: u64,
    neighbours: &[u64],
    codes: &[u8],
    used: u64,
    name: u64,
    heads: &mut [u64],
    held_neighbours: &mut [u64],
    held_codes: &mut [u8],
)
    requires i_bound { (i < 8) × (length neighbours.now ≡ 64) × (length codes.now ≡ 64) }
    requires heads_len { (length heads.old ≡ 24) × (length held_neighbours.old ≡ 512)
        × (length held_codes.old ≡ 512) }
    ensures { ◌≡◌ {A = Store} (record {
      heads = heads.new;
      neighbours = held_neighbours.new;
      codes = held_codes.new;
    }) (with_place i (masked (bit own) (used_record 64 neighbours.now codes.now used)) name (record {
      heads = heads.old;
      neighbours = held_neighbours.old;
      codes = held_codes.old;
    })) }
{
    put_head(i, 64, name, mask_used(own, used), heads);
    let at = 64 * i;
    let end = at + 64;
    mask(
        own, // the party's own vertices
        neighbours,
        codes,
        &mut held_neighbours[at..end],
        &mut held_codes[at..end],
    );
}

// The vertices of the word `own` as place i of the store has them, put into a record of 64 qubits.
pub fn take_merged(
    i: usize,
    own: u64,
    held_neighbours: &[u64],
    held_codes: &[u8],
    neighbours: &mut [u64],
    codes: &mut [u8],
)
    requires i_bound { (i < 8) × (length held_neighbours.now ≡ 512) × (length held_codes.now ≡ 512) }
    requires neighbours_len { (length neighbours.old ≡ 64) × (length codes.old ≡ 64) }
    ensures { ◌≡◌ {A = LentRecord}
        (lent_record 64 neighbours.new codes.new)
        (merged (bit own) (record {
          held = record {
            n = 64;
            neighbours = part_at i 64 held_neighbours.now;
            codes = part_at i 64 held_codes.now;
          };
          used = 0;
        }) (used_record 64 neighbours.old codes.old 0)).held }
{
    let at = 64 * i;
    let end = at + 64;
    merge(
        own,
        &held_neighbours[at..end],
        &held_codes[at..end],
        neighbours,
        codes,
    );
}
