// Complementations of the image rule on a lent record: the bits C and D are followed, and the vertices listed.
ghost use Rattle.std.specs.Prelude.{true, [], ◌∷◌, ◌≡◌, ◌+◌, ◌<◌, get_or, length};
ghost use Rattle.words.specs.Bits.{bit};
ghost use Rattle.image_impl.specs.internal.Working.{Complemented, Tracking, working};

use operations_rewriting::complements::complement_record;
use operations_rewriting::pivots::pivot_record;
use words::single;

// What the rule keeps beside the lent record and list: the bits C and D of the codes, and how many vertices are listed.
#[derive(Clone, Copy)]
pub struct Tracked {
    pub c: u64,
    pub d: u64,
    pub count: usize,
}

// Complements at v and puts v on the list. At v itself C becomes C + D, at a neighbour D becomes C + D.
pub fn complement_at(
    neighbours: &mut [u64],
    codes: &mut [u8],
    list: &mut [u8],
    at: Tracked,
    v: usize,
) -> Tracked
    requires { (v < length neighbours.old) × (at.count < 96) × Tracking (length neighbours.old)
        (working neighbours.old codes.old list.old at) }
    ensures { Complemented (length neighbours.old)
        (working neighbours.old codes.old list.old at) (v ∷ [])
        (working neighbours.new codes.new list.new result) }
{
    let around = neighbours[v];
    let count = at.count;
    complement_record(neighbours, codes, v);
    list[count] = v as u8;
    Tracked {
        c: at.c ^ (at.d & single(v)),
        d: at.d ^ (around & at.c),
        count: count + 1,
    }
}

// Complements at j, k and j, where j and k are joined: one pivot. C and D are exchanged at j and k.
pub fn triple_at(
    neighbours: &mut [u64],
    codes: &mut [u8],
    list: &mut [u8],
    at: Tracked,
    j: usize,
    k: usize,
) -> Tracked
    requires j_in_bounds { (j < length neighbours.old) × (k < length neighbours.old) × (at.count + 2 < 96)
        × Tracking (length neighbours.old) (working neighbours.old codes.old list.old at) }
    requires k_value { bit (get_or neighbours.old j 0) k ≡ true }
    ensures { Complemented (length neighbours.old)
        (working neighbours.old codes.old list.old at) (j ∷ k ∷ j ∷ [])
        (working neighbours.new codes.new list.new result) }
{
    let count = at.count;
    pivot_record(neighbours, codes, j, k);
    list[count] = j as u8;
    list[count + 1] = k as u8;
    list[count + 2] = j as u8;
    let turned = (at.c ^ at.d) & (single(j) | single(k));
    Tracked {
        c: at.c ^ turned,
        d: at.d ^ turned,
        count: count + 3,
    }
}
