// The rank of the edges across a cut, by elimination over the vertices of the unmarked side.
#![tactic(auto)]

ghost use Rattle.std.specs.Prelude.{◌≡◌, ℕ, ◌<◌, ◌≤◌, ◌^◌, length};
ghost use Rattle.cut.specs.Cut.{crossing, cut_rank};
ghost use Rattle.record.specs.Graph.{Simple};
ghost use Rattle.record.specs.NeighbourWords.{graph_in};
ghost use Rattle.words.specs.Bits.{bit};
ghost use Rattle.cut_impl.specs.internal.Basis.{Echelon, Remainder};

use words::{has, smallest};

// Column k of the edges between the sides, as a word over the marked side: the neighbours of k there where k is on the
// other side, else none.
fn crossing_column(neighbours: &[u64], side: u64, k: usize) -> u64
    requires k_bound { (k < 64) × (k < length neighbours.now) }
    requires by_index { (j : ℕ) → graph_in neighbours.now j k ≡ graph_in neighbours.now k j }
    ensures { (j : ℕ)
        → bit result j ≡ crossing (bit side) (graph_in neighbours.now) j k }
{
    if has(side, k) {
        0
    } else {
        neighbours[k] & side
    }
}

// w with words of the basis added to it, as long as its smallest set bit is that of one of them.
fn remainder(basis: &[u64; 64], w: u64) -> u64
    requires { Echelon basis.now }
    ensures { Remainder basis.now w result }
{
    let mut rest = w;
    while rest != 0 {
        let i = smallest(rest);
        let word = basis[i];
        if word == 0 {
            return rest;
        }
        rest ^= word;
    }
    rest
}

// The rank modulo 2 of the edges between the sides: a column that is no sum of earlier ones leaves a remainder, which
// joins the basis.
pub fn cut_rank(n: usize, neighbours: &[u64], side: u64) -> usize
    requires n_bound { (n ≤ 64) × (length neighbours.now ≡ n) × (side < 2 ^ n) }
    requires simple { Simple n (graph_in neighbours.now) }
    ensures { result ≡ cut_rank n (bit side) (graph_in neighbours.now) }
{
    let mut basis = [0u64; 64];
    let mut rank = 0;
    for k in 0..n {
        let column = crossing_column(neighbours, side, k);
        let rest = remainder(&basis, column);
        if rest != 0 {
            basis[smallest(rest)] = rest;
            rank += 1;
        }
    }
    rank
}
