// Complements of a record in its buffers, and codes put before those of its vertices.
ghost use Rattle.std.specs.Prelude.{cond, ◌≡◌, ℕ, ◌<◌, ◌≤◌, ◌^◌, eqb, get_or, length};
ghost use Rattle.std.specs.Int.Bits.{bit_xor};
ghost use Rattle.buffers.specs.Buffers.{tabulate};
ghost use Rattle.clifford.specs.Clifford.{clifford_of, code_of, then};
ghost use Rattle.clifford.specs.Vectors.{codes_of};
ghost use Rattle.record.specs.Graph.{complement};
ghost use Rattle.record.specs.internal.NeighbourWords.{SameGraph};
ghost use Rattle.record.specs.NeighbourWords.{graph_in};
ghost use Rattle.operations.specs.internal.InPlace.{Rewritten, Unrefused, record_in};
ghost use Rattle.record.specs.Records.{complement_record};
ghost use Rattle.words.specs.Bits.{bit};

use clifford_impl::numbers::{S_DAG, SQRT_X, before_each, compose};
use words::{flip, smallest, without_smallest};

// Code k before the codes of the vertices that the word names. Not by turn_each: no word is changed.
pub fn put_before(codes: &mut [u8], word: u64, k: u8)
    requires codes_len_bound { (length codes.old ≤ 64) × ((q : ℕ) → get_or codes.old q 0 < 24) }
    requires word_bound { (word < 2 ^ (length codes.old)) × (k < 24) }
    ensures { codes.new ≡ tabulate (length codes.old) (λ q. code_of (cond (bit word q)
        (then (clifford_of k) (codes_of codes.old q)) (codes_of codes.old q))) }
{
    let turned = before_each(k);
    let mut rest = word;
    while rest != 0 {
        let i = smallest(rest);
        let code = codes[i];
        codes[i] = turned[code as usize];
        rest = without_smallest(rest);
    }
}

// A code before that of vertex a, and another before those of its neighbours.
pub fn recode(neighbours: &[u64], codes: &mut [u8], a: usize, own: u8, near: u8)
    requires unrefused { Unrefused (record_in neighbours.now codes.old) × (a < length neighbours.now) }
    requires own_bound { (own < 24) × (near < 24) }
    ensures { codes.new ≡ tabulate (length neighbours.now) (λ q. code_of (cond (eqb q a)
        (then (clifford_of own) (codes_of codes.old q)) (cond (bit (get_or neighbours.now a 0) q)
        (then (clifford_of near) (codes_of codes.old q)) (codes_of codes.old q)))) }
{
    let first = compose(own, codes[a]);
    put_before(codes, neighbours[a], near);
    codes[a] = first;
}

// Each of these vertices gets the word that `flips` names for it flipped in its own, and code k before its code.
pub fn turn_each<F: Fn(usize) -> u64>(
    neighbours: &mut [u64],
    codes: &mut [u8],
    vertices: u64,
    k: u8,
    flips: F,
)
    requires neighbours_len_bound { (length neighbours.old ≤ 64) × (length codes.old ≡ length neighbours.old) }
    requires by_index { (q : ℕ) → get_or codes.old q 0 < 24 }
    requires vertices_bound { (vertices < 2 ^ (length neighbours.old)) × (k < 24) }
    requires callable { (i : ℕ) → i < 64 → F.pre flips i }
    ensures words_after { (f : ℕ → ℕ) → ((i v : ℕ) → F.post flips i v → v ≡ f i) → (i : ℕ) → get_or neighbours.new i 0
        ≡ cond (bit vertices i) (bit_xor (get_or neighbours.old i 0) (f i)) (get_or neighbours.old i 0) }
    ensures codes_after { codes.new ≡ tabulate (length codes.old) (λ q. code_of (cond (bit vertices q)
        (then (clifford_of k) (codes_of codes.old q)) (codes_of codes.old q))) }
{
    let turned = before_each(k);
    let mut rest = vertices;
    while rest != 0 {
        let i = smallest(rest);
        let code = codes[i];
        codes[i] = turned[code as usize];
        neighbours[i] ^= flips(i);
        rest = without_smallest(rest);
    }
}

// Every edge between two neighbours of a is flipped, by one xor for each of them, and 6 comes before its code.
fn complement_around(neighbours: &mut [u64], codes: &mut [u8], a: usize)
    requires { Unrefused (record_in neighbours.old codes.old) × (a < length neighbours.old) }
    ensures same_graph { SameGraph (graph_in neighbours.new) (complement (graph_in neighbours.old) a) }
    ensures codes_after { codes.new ≡ tabulate (length codes.old) (λ q. code_of (cond
        (bit (get_or neighbours.old a 0) q)
        (then (clifford_of 6) (codes_of codes.old q)) (codes_of codes.old q))) }
{
    let around = neighbours[a];
    turn_each(neighbours, codes, around, S_DAG, |i| flip(around, i));
}

// Complements the record at vertex a: 13 before its code, and 6 before those of its neighbours.
pub fn complement_record(neighbours: &mut [u64], codes: &mut [u8], a: usize)
    requires { Unrefused (record_in neighbours.old codes.old) × (a < length neighbours.old) }
    ensures { Rewritten neighbours.old codes.old (λ g. complement_record g a)
        neighbours.new codes.new }
{
    let first = compose(SQRT_X, codes[a]);
    complement_around(neighbours, codes, a);
    codes[a] = first;
}
