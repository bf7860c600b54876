// A pivot and a complementation that leave out the edges at a vertex, which a measurement is about to isolate: its
// neighbours are gone through once.
ghost use Rattle.std.specs.Prelude.{◌&&◌, cond, not, true, ◌≡◌, ℕ, ◌<◌, eqb, get_or, length};
ghost use Rattle.buffers.specs.Buffers.{tabulate};
ghost use Rattle.clifford.specs.Clifford.{clifford_of, code_of, then};
ghost use Rattle.clifford.specs.Vectors.{codes_of};
ghost use Rattle.record.specs.Graph.{complement};
ghost use Rattle.record.specs.internal.NeighbourWords.{SameGraph};
ghost use Rattle.record.specs.NeighbourWords.{graph_in};
ghost use Rattle.operations.specs.internal.InPlace.{Unrefused, record_in};
ghost use Rattle.operations.specs.Steps.{pivot_record};
ghost use Rattle.record.specs.Lent.{code_numbers, held_record};
ghost use Rattle.record.specs.Records.{complement_record};
ghost use Rattle.words.specs.Bits.{bit};

use clifford_impl::numbers::{H_NXZ, S_DAG, SQRT_X, compose};
use operations_rewriting::complements::turn_each;
use operations_rewriting::pivots::join_turning;
use words::{flip, single};

// Pivots on q and its neighbour k without the edges at q: those between the neighbours of q and k with its neighbours are
// flipped. The codes are those of the pivot; the answer is the neighbours that q would have.
pub fn pivot_parted(neighbours: &mut [u64], codes: &mut [u8], q: usize, k: usize) -> u64
    requires unrefused { Unrefused (record_in neighbours.old codes.old) }
    requires q_in_bounds { (q < length neighbours.old) × (k < length neighbours.old) }
    requires k_value { bit (get_or neighbours.old q 0) k ≡ true }
    ensures same_graph { SameGraph (graph_in neighbours.new)
        (λ i l. (pivot_record (held_record (record_in neighbours.old codes.old)) q k).graph i l
        && (not (eqb i q) && not (eqb l q))) }
    ensures codes_after { codes.new ≡ code_numbers (length neighbours.old)
        (pivot_record (held_record (record_in neighbours.old codes.old)) q k) }
    ensures by_index { (j : ℕ) → bit result j
        ≡ (pivot_record (held_record (record_in neighbours.old codes.old)) q k).graph q j }
{
    let at_q = compose(H_NXZ, codes[q]);
    let at_k = compose(H_NXZ, codes[k]);
    let to_q = neighbours[q];
    let to_k = neighbours[k] | single(k);
    join_turning(neighbours, codes, to_q, to_k);
    codes[q] = at_q;
    codes[k] = at_k;
    flip(to_k, q)
}

// Every edge between two neighbours of q is flipped and each loses q, by one xor for each, and 6 comes before its code; q
// has no edges then.
fn complement_away(neighbours: &mut [u64], codes: &mut [u8], q: usize)
    requires { Unrefused (record_in neighbours.old codes.old) × (q < length neighbours.old) }
    ensures same_graph { SameGraph (graph_in neighbours.new)
        (λ i l. complement (graph_in neighbours.old) q i l && (not (eqb i q) && not (eqb l q))) }
    ensures codes_after { codes.new ≡ tabulate (length codes.old) (λ j. code_of (cond
        (bit (get_or neighbours.old q 0) j)
        (then (clifford_of 6) (codes_of codes.old j)) (codes_of codes.old j))) }
{
    let near = neighbours[q];
    let around = near | single(q);
    turn_each(neighbours, codes, near, S_DAG, |i| flip(around, i));
    neighbours[q] = 0;
}

// Complements at q without the edges at q. The codes are those of the complementation; the answer is the neighbours of q.
pub fn complement_parted(neighbours: &mut [u64], codes: &mut [u8], q: usize) -> u64
    requires { Unrefused (record_in neighbours.old codes.old) × (q < length neighbours.old) }
    ensures same_graph { SameGraph (graph_in neighbours.new)
        (λ i l. complement (graph_in neighbours.old) q i l && (not (eqb i q) && not (eqb l q))) }
    ensures codes_after { codes.new ≡ code_numbers (length neighbours.old)
        (complement_record (held_record (record_in neighbours.old codes.old)) q) }
    ensures value { result ≡ get_or neighbours.old q 0 }
{
    let near = neighbours[q];
    let first = compose(SQRT_X, codes[q]);
    complement_away(neighbours, codes, q);
    codes[q] = first;
    near
}
