// The connected part of a vertex, on neighbour words, and whether some part has more than 20 vertices.
ghost use Rattle.std.specs.Prelude.{◌≡◌, ℕ, ◌<◌, ◌≤◌, length};
ghost use Rattle.record.specs.Graph.{Simple};
ghost use Rattle.record.specs.NeighbourWords.{graph_in};
ghost use Rattle.comparison.specs.Parts.{part_above};
ghost use Rattle.words.specs.Bits.{bit};
ghost use Rattle.comparison_parts.specs.internal.Spreads.{PartWord, spread_to};

use words::{count, has, single};

// The marked vertices and their neighbours.
pub fn spread(neighbours: &[u64], marked: u64) -> u64
    requires { length neighbours.now ≤ 64 }
    ensures { (j : ℕ) → bit result j ≡ spread_to (length neighbours.now)
        (graph_in neighbours.now) (bit marked) j }
{
    let mut reached = marked;
    for i in 0..neighbours.len() {
        if has(marked, i) {
            reached |= neighbours[i];
        }
    }
    reached
}

// The connected part of vertex q: the vertex, its neighbours, theirs and so on, until none is new.
pub fn part(neighbours: &[u64], q: usize) -> u64
    requires neighbours_len_bound { (length neighbours.now ≤ 64) × (q < length neighbours.now) }
    requires simple { Simple (length neighbours.now) (graph_in neighbours.now) }
    ensures { PartWord (length neighbours.now) (graph_in neighbours.now) q result }
{
    let mut reached = single(q);
    loop {
        let next = spread(neighbours, reached);
        if next == reached {
            return reached;
        }
        reached = next;
    }
}

// Whether some part has more than 20 vertices. The part of a vertex seen in an earlier one is that one.
pub fn part_above(neighbours: &[u64]) -> bool
    requires neighbours_len_bound { length neighbours.now ≤ 64 }
    requires simple { Simple (length neighbours.now) (graph_in neighbours.now) }
    ensures { result ≡ part_above 20 (length neighbours.now) (graph_in neighbours.now) }
{
    let mut seen = 0;
    for q in 0..neighbours.len() {
        if !has(seen, q) {
            let component = part(neighbours, q);
            if 20 < count(component) {
                return true;
            }
            seen = seen | component;
        }
    }
    false
}
