// Graphs as neighbour words: the edges between two sets flipped.
ghost use Rattle.std.specs.Prelude.{◌&&◌, ◌≡◌, ℕ, ◌<◌, ◌≤◌, ◌^◌, length};
ghost use Rattle.record.specs.internal.Joined.{joined_by};
ghost use Rattle.record.specs.internal.NeighbourWords.{SameGraph};
ghost use Rattle.record.specs.NeighbourWords.{graph_in};
ghost use Rattle.words.specs.Bits.{◌⊕◌, bit};

use words::{has, smallest, where_true, without_smallest};

// The word of vertex i with its edges between the two sets flipped.
pub fn joined_word(word: u64, to_a: u64, to_b: u64, i: usize) -> u64
    requires { i < 64 }
    ensures { (l : ℕ) → bit result l
        ≡ bit word l ⊕ ((bit to_a i && bit to_b l) ⊕ (bit to_b i && bit to_a l)) }
{
    word ^ (where_true(has(to_a, i), to_b) ^ where_true(has(to_b, i), to_a))
}

// The edges between the two sets flipped.
pub fn join_sets(neighbours: &mut [u64], to_a: u64, to_b: u64)
    requires { (length neighbours.old ≤ 64) × (to_a < 2 ^ (length neighbours.old))
        × (to_b < 2 ^ (length neighbours.old)) }
    ensures { SameGraph (graph_in neighbours.new)
        (joined_by (graph_in neighbours.old) (bit to_a) (bit to_b)) }
{
    let mut rest = to_a | to_b;
    while rest != 0 {
        let i = smallest(rest);
        neighbours[i] = joined_word(neighbours[i], to_a, to_b, i);
        rest = without_smallest(rest);
    }
}
