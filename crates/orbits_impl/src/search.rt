// The search: each graph found is complemented at every vertex, in the order in which they were found.
ghost use Rattle.std.specs.Prelude.{◌<◌, ◌≤◌, ◌≡◌, length, replicate};
ghost use Rattle.buffers.specs.Buffers.{tabulate};
ghost use Rattle.orbits.specs.Numbers.{graph_count};
ghost use Rattle.orbits.specs.internal.Numbers.{pairs_within};
ghost use Rattle.orbits_impl.specs.internal.Marks.{Around, Queue, Spread, Visited};

use crate::numbers::{all_pairs_within, graph_words};
use words::{flip, has};

// Marks number h, and puts it behind the others where it was not marked. Returns the new end of the list.
fn visit(h: u64, marks: &mut [u64; 512], list: &mut [u16], tail: usize) -> usize
    requires { (h < 32768) × Queue marks.old list.old tail }
    ensures { Visited (λ u. u ≡ h) marks.old list.old tail
        marks.new list.new result }
{
    let w = (h / 64) as usize;
    let q = (h % 64) as usize;
    let word = marks[w];
    if has(word, q) {
        return tail;
    }
    marks[w] = flip(word, q);
    list[tail] = h as u16;
    tail + 1
}

// The same of graph g complemented at each vertex: the edges between two neighbours of it are flipped.
fn visit_around(
    n: usize,
    g: u64,
    within: &[u64; 64],
    marks: &mut [u64; 512],
    list: &mut [u16],
    tail: usize,
) -> usize
    requires le_n { (1 ≤ n) × (n ≤ 6) × (g < graph_count n) × (within.now ≡ tabulate 64 (pairs_within n)) }
    requires queue { Queue marks.old list.old tail }
    ensures { Visited (Around n g n) marks.old list.old tail
        marks.new list.new result }
{
    let words = graph_words(n, g);
    let mut end = tail;
    for &around in &words[..n] {
        end = visit(g ^ within[around as usize], marks, list, end);
    }
    end
}

// Marks the orbit of graph g in words that are 0. The list holds its numbers, in the order in which they were found.
pub fn spread(n: usize, g: u64, marks: &mut [u64; 512], list: &mut [u16])
    requires { (1 ≤ n) × (n ≤ 6) × (g < graph_count n) × (length list.old ≡ 32768)
        × (marks.old ≡ replicate 512 0) }
    ensures { Spread n g list.old marks.new list.new }
{
    let within = all_pairs_within(n);
    let mut tail = visit(g, marks, list, 0);
    // no `for`: the list grows while it is followed
    let mut head = 0;
    while head < tail {
        let next = list[head] as u64;
        tail = visit_around(n, next, &within, marks, list, tail);
        head += 1;
    }
}
