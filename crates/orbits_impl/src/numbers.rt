// Graphs on up to 6 vertices and their numbers: loops over the pairs of vertices.
ghost use Rattle.std.specs.Prelude.{◌&&◌, ◌||◌, ◌≡◌, ℕ, ◌<◌, ◌≤◌, eqb, length};
ghost use Rattle.buffers.specs.Buffers.{tabulate};
ghost use Rattle.record.specs.NeighbourWords.{graph_in};
ghost use Rattle.orbits.specs.internal.Numbers.{WordsOf, pairs_within};
ghost use Rattle.orbits_impl.specs.internal.Tests.{Tells, Tests};
ghost use Rattle.record.specs.Graph.{Graph};
ghost use Rattle.orbits.specs.Numbers.{graph_number, next_pair, pairs_of};
ghost use Rattle.words.specs.Bits.{bit};

use orbits::Pair;
use words::{has, put_bit, single};

// How many pairs n vertices have.
fn pair_count(n: usize) -> usize
    requires { (1 ≤ n) × (n ≤ 6) }
    ensures { result ≡ pairs_of n }
{
    n * (n - 1) / 2
}

// The pair behind.
fn next_pair(n: usize, pair: Pair) -> Pair
    requires { (pair.low < 64) × (pair.high < 64) }
    ensures { result ≡ next_pair n pair }
{
    if pair.high + 1 < n {
        Pair {
            high: pair.high + 1,
            ..pair
        }
    } else {
        Pair {
            low: pair.low + 1,
            high: pair.low + 2,
        }
    }
}

// The number of the graph in which two vertices are joined where the test says so.
fn number_where<F: Fn(Pair) -> bool>(n: usize, joined: F) -> u64
    requires n_bound { (1 ≤ n) × (n ≤ 6) }
    requires tests { Tests n (F.pre joined) }
    ensures { (θ : Graph) → Tells n (F.post joined) θ → result ≡ graph_number n θ }
{
    let mut number = 0;
    let mut pair = Pair { low: 0, high: 1 };
    for k in 0..pair_count(n) {
        number = put_bit(number, k, joined(pair));
        pair = next_pair(n, pair);
    }
    number
}

// The number of a graph.
pub fn graph_number(n: usize, neighbours: &[u64]) -> u64
    requires { (1 ≤ n) × (n ≤ 6) × (length neighbours.now ≡ n) }
    ensures { result ≡ graph_number n (graph_in neighbours.now) }
{
    number_where(n, |pair| has(neighbours[pair.low], pair.high))
}

// The number of the graph in which each two vertices of a set are joined.
fn pairs_within(n: usize, set: u64) -> u64
    requires { (1 ≤ n) × (n ≤ 6) }
    ensures { result ≡ pairs_within n set }
{
    number_where(n, |pair| has(set, pair.low) & has(set, pair.high))
}

// The same for every set of up to 6 vertices.
pub fn all_pairs_within(n: usize) -> [u64; 64]
    requires { (1 ≤ n) × (n ≤ 6) }
    ensures { result ≡ tabulate 64 (pairs_within n) }
{
    let mut table = [0u64; 64];
    for set in 0..64 {
        table[set] = pairs_within(n, set as u64);
    }
    table
}

// w with bit q set where b is true.
fn set_where(w: u64, q: usize, b: bool) -> u64
    requires { q < 64 }
    ensures { (j : ℕ) → bit result j ≡ (bit w j || (eqb j q && b)) }
{
    if b { w | single(q) } else { w }
}

// The neighbour words of graph g. Not by number_where: a pair sets a bit in each of two words.
pub fn graph_words(n: usize, g: u64) -> [u64; 6]
    requires { (1 ≤ n) × (n ≤ 6) }
    ensures { WordsOf n g result }
{
    let mut words = [0u64; 6];
    let mut pair = Pair { low: 0, high: 1 };
    for k in 0..pair_count(n) {
        let Pair { low, high } = pair;
        let joined = has(g, k);
        words[low] = set_where(words[low], high, joined);
        words[high] = set_where(words[high], low, joined);
        pair = next_pair(n, pair);
    }
    words
}
