// A vertex isolated by a measurement, in the buffers of a record.
ghost use Rattle.std.specs.Prelude.{◌&&◌, cond, not, ◌≡◌, ◌<◌, ◌≤◌, eqb, get_or, length};
ghost use Rattle.buffers.specs.Buffers.{tabulate};
ghost use Rattle.clifford.specs.Clifford.{clifford_of, code_of, then};
ghost use Rattle.clifford.specs.Vectors.{codes_of};
ghost use Rattle.record.specs.Graph.{Simple};
ghost use Rattle.record.specs.internal.NeighbourWords.{SameGraph};
ghost use Rattle.record.specs.NeighbourWords.{graph_in};
ghost use Rattle.operations.specs.internal.GraphSteps.{isolated, hadamard_code};
ghost use Rattle.operations.specs.internal.InPlace.{Rewritten, Unrefused, record_in};
ghost use Rattle.words.specs.Bits.{bit};

use buffers::sign_digit;
use clifford_impl::numbers::{Z, compose};
use operations_rewriting::complements::turn_each;
use words::{single, smallest, without_smallest};

// The edges at q removed: each neighbour loses q, and q all of them. Not by turn_each: no code is changed.
fn remove_edges(neighbours: &mut [u64], q: usize)
    requires neighbours_len_bound { (length neighbours.old ≤ 64) × (q < length neighbours.old) }
    requires simple { Simple (length neighbours.old) (graph_in neighbours.old) }
    ensures { SameGraph (graph_in neighbours.new)
        (λ k l. graph_in neighbours.old k l && (not (eqb k q) && not (eqb l q))) }
{
    let own = single(q);
    let mut rest = neighbours[q];
    while rest != 0 {
        let i = smallest(rest);
        neighbours[i] = neighbours[i] ^ own;
        rest = without_smallest(rest);
    }
    neighbours[q] = 0;
}

// The edges at q removed, and 2, which is Z, before the codes of its neighbours.
fn remove_turning(neighbours: &mut [u64], codes: &mut [u8], q: usize)
    requires { Unrefused (record_in neighbours.old codes.old) × (q < length neighbours.old) }
    ensures same_graph { SameGraph (graph_in neighbours.new)
        (λ k l. graph_in neighbours.old k l && (not (eqb k q) && not (eqb l q))) }
    ensures codes_after { codes.new ≡ tabulate (length codes.old) (λ k. code_of (cond
        (bit (get_or neighbours.old q 0) k)
        (then (clifford_of 2) (codes_of codes.old k)) (codes_of codes.old k))) }
{
    let away = single(q);
    let near = neighbours[q];
    turn_each(neighbours, codes, near, Z, |_i| away);
    neighbours[q] = 0;
}

// The code with a Hadamard before it, and a sign t for the image of X.
pub fn with_hadamard(t: bool, code: u8) -> u8
    requires { code < 24 }
    ensures { result ≡ code_of (then (hadamard_code t) (clifford_of code)) }
{
    compose(8 + 2 * sign_digit(t), code)
}

// Isolates vertex q, whose Z before the code has the sign t.
pub fn isolate(neighbours: &mut [u64], codes: &mut [u8], q: usize, t: bool)
    requires { Unrefused (record_in neighbours.old codes.old) × (q < length neighbours.old) }
    ensures { Rewritten neighbours.old codes.old (λ g. isolated g q t)
        neighbours.new codes.new }
{
    let own = with_hadamard(t, codes[q]);
    if t {
        remove_turning(neighbours, codes, q);
        codes[q] = own;
        return;
    }
    remove_edges(neighbours, q);
    codes[q] = own;
}
