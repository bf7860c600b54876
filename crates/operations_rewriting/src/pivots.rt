// Pivots of a record in its buffers.
ghost use Rattle.std.specs.Prelude.{◌&&◌, cond, true, ◌≡◌, ◌<◌, ◌^◌, ℕ, ◌≤◌, get_or, length};
ghost use Rattle.std.specs.Int.Bits.{bit_or};
ghost use Rattle.buffers.specs.Buffers.{tabulate};
ghost use Rattle.clifford.specs.Clifford.{clifford_of, code_of, then};
ghost use Rattle.clifford.specs.Vectors.{codes_of};
ghost use Rattle.record.specs.internal.Joined.{joined_by};
ghost use Rattle.record.specs.internal.NeighbourWords.{SameGraph};
ghost use Rattle.record.specs.NeighbourWords.{graph_in};
ghost use Rattle.operations.specs.internal.InPlace.{Rewritten, Unrefused, record_in};
ghost use Rattle.operations.specs.Steps.{pivot_record};
ghost use Rattle.words.specs.Bits.{bit, ◌⊕◌};

use crate::complements::turn_each;
use clifford_impl::numbers::{H_NXZ, Z, compose};
use words::single;

// Each of these vertices gets the word flipped in its own, and 2 before its code.
fn turn_rows(neighbours: &mut [u64], codes: &mut [u8], rows: u64, word: u64)
    requires neighbours_len_bound { (length neighbours.old ≤ 64) × (length codes.old ≡ length neighbours.old) }
    requires by_index { (q : ℕ) → get_or codes.old q 0 < 24 }
    requires rows_bound { «rows» < 2 ^ (length neighbours.old) }
    ensures same_graph { SameGraph (graph_in neighbours.new)
        (λ k l. graph_in neighbours.old k l ⊕ (bit «rows» k && bit «word» l)) }
    ensures codes_after { codes.new ≡ tabulate (length codes.old) (λ q. code_of (cond (bit «rows» q)
        (then (clifford_of 2) (codes_of codes.old q)) (codes_of codes.old q))) }
{
    turn_each(neighbours, codes, rows, Z, |_i| word);
}

// The edges between the two sets flipped, and 2 before the codes of their vertices. A vertex of the first set alone gets
// the second set's word, one of the second alone the first's, and one of both the xor of the two.
pub fn join_turning(neighbours: &mut [u64], codes: &mut [u8], to_a: u64, to_b: u64)
    requires unrefused { Unrefused (record_in neighbours.old codes.old) }
    requires to_a_bound { (to_a < 2 ^ (length neighbours.old)) × (to_b < 2 ^ (length neighbours.old)) }
    ensures same_graph { SameGraph (graph_in neighbours.new)
        (joined_by (graph_in neighbours.old) (bit to_a) (bit to_b)) }
    ensures codes_after { codes.new ≡ tabulate (length codes.old) (λ q. code_of (cond
        (bit (bit_or to_a to_b) q)
        (then (clifford_of 2) (codes_of codes.old q)) (codes_of codes.old q))) }
{
    let both = to_a & to_b;
    turn_rows(neighbours, codes, to_a ^ both, to_b);
    turn_rows(neighbours, codes, to_b ^ both, to_a);
    turn_rows(neighbours, codes, both, to_a ^ to_b);
}

// Pivots the record on the edge j, k, which complements j, k, j: the edges between j with its neighbours and k with its
// neighbours are flipped; 11 comes before the codes of j and k, and 2 before those of their other neighbours.
pub fn pivot_record(neighbours: &mut [u64], codes: &mut [u8], j: usize, k: usize)
    requires unrefused { Unrefused (record_in neighbours.old codes.old) }
    requires j_in_bounds { (j < length neighbours.old) × (k < length neighbours.old) }
    requires k_value { bit (get_or neighbours.old j 0) k ≡ true }
    ensures { Rewritten neighbours.old codes.old (λ g. pivot_record g j k)
        neighbours.new codes.new }
{
    let at_j = compose(H_NXZ, codes[j]);
    let at_k = compose(H_NXZ, codes[k]);
    let to_j = neighbours[j] | single(j);
    let to_k = neighbours[k] | single(k);
    join_turning(neighbours, codes, to_j, to_k);
    codes[j] = at_j;
    codes[k] = at_k;
}
