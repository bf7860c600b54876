// A place of a store written and read.
ghost use Rattle.std.specs.Prelude.{◌≡◌, ◌*◌, ◌+◌, ◌<◌, ◌≤◌, length};
ghost use Rattle.buffers.specs.Buffers.{written};
ghost use Rattle.store.specs.Kept.{headed, placed_at};
ghost use Rattle.store.specs.Places.{part_at};

use buffers::copies::copy_record;

// The three words of place i.
pub fn put_head(i: usize, n: u64, name: u64, used: u64, heads: &mut [u64])
    requires { (i < 8) × (3 * i + 3 ≤ length heads.old) }
    ensures { heads.new ≡ headed i n name used heads.old }
{
    heads[3 * i] = n;
    heads[3 * i + 1] = name;
    heads[3 * i + 2] = used;
}

// The record of place i.
pub fn put_record(
    i: usize,
    neighbours: &[u64],
    codes: &[u8],
    held_neighbours: &mut [u64],
    held_codes: &mut [u8],
)
    requires i_bound { (i < 8) × (length codes.now ≡ length neighbours.now) }
    requires neighbours_in_bounds { (64 * i + length neighbours.now ≤ length held_neighbours.old)
        × (64 * i + length neighbours.now ≤ length held_codes.old) }
    ensures { (held_neighbours.new
        ≡ placed_at i neighbours.now held_neighbours.old)
        × (held_codes.new ≡ placed_at i codes.now held_codes.old) }
{
    let at = 64 * i;
    let end = at + neighbours.len();
    copy_record(
        neighbours,
        codes,
        &mut held_neighbours[at..end],
        &mut held_codes[at..end],
    );
}

// The record of place i on n qubits into the first places of two buffers; the others keep theirs.
pub fn take_record(
    i: usize,
    n: usize,
    held_neighbours: &[u64],
    held_codes: &[u8],
    neighbours: &mut [u64],
    codes: &mut [u8],
)
    requires i_bound { (i < 8) × (n ≤ length neighbours.old) × (n ≤ length codes.old) }
    requires n_in_bounds { (64 * i + n ≤ length held_neighbours.now) × (64 * i + n ≤ length held_codes.now) }
    ensures { (neighbours.new
        ≡ written (part_at i n held_neighbours.now) neighbours.old)
        × (codes.new ≡ written (part_at i n held_codes.now) codes.old) }
{
    let at = 64 * i;
    let end = at + n;
    copy_record(
        &held_neighbours[at..end],
        &held_codes[at..end],
        &mut neighbours[..n],
        &mut codes[..n],
    );
}
