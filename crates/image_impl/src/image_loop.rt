// The loop of the image rule.
ghost use Rattle.std.specs.Prelude.{IfNone, IfSome, ◌≡◌, ◌+◌, ◌<◌, ◌≤◌, ◌^◌, length};
ghost use Rattle.words.specs.Search.{first};
ghost use Rattle.image.specs.Rule.{image_list, moves, state_of};
ghost use Rattle.image_impl.specs.internal.Working.{
  Complemented,
  Tracking,
  joined_in,
  working,
  working_record,
};

use crate::complementing::{Tracked, complement_at, triple_at};
use words::{smallest, without_smallest};

// The smallest vertex of the set c that has a neighbour in c.
fn first_joined(neighbours: &[u64], c: u64) -> Option<usize>
    requires { (length neighbours.now ≤ 64) × (c < 2 ^ (length neighbours.now)) }
    ensures some { IfSome result (λ j. (j ≡ first (length neighbours.now) (joined_in neighbours.now c))
        × (j < length neighbours.now)) }
    ensures none { IfNone result
        (length neighbours.now ≡ first (length neighbours.now) (joined_in neighbours.now c)) }
{
    let mut rest = c;
    while rest != 0 {
        let j = smallest(rest);
        if neighbours[j] & c != 0 {
            return Some(j);
        }
        rest = without_smallest(rest);
    }
    None
}

// The next complementations, if there are any. Where no vertex has both bits 1, C = 1 means D = 0; and the smallest
// vertex with a neighbour of its kind has only larger ones.
fn next_moves(
    neighbours: &mut [u64],
    codes: &mut [u8],
    list: &mut [u8],
    at: Tracked,
) -> Option<Tracked>
    requires { Tracking (length neighbours.old) (working neighbours.old codes.old list.old at)
        × (at.count + length (moves (length neighbours.old)
        (state_of (working_record (working neighbours.old codes.old list.old at)))) ≤ 96) }
    ensures some { IfSome result (λ next. Complemented (length neighbours.old)
        (working neighbours.old codes.old list.old at)
        (moves (length neighbours.old)
        (state_of (working_record (working neighbours.old codes.old list.old at))))
        (working neighbours.new codes.new list.new next) × (at.count < next.count)) }
    ensures none { IfNone result (Complemented (length neighbours.old)
        (working neighbours.old codes.old list.old at)
        (moves (length neighbours.old)
        (state_of (working_record (working neighbours.old codes.old list.old at))))
        (working neighbours.new codes.new list.new at)) }
{
    let c = at.c;
    let both = c & at.d;
    if both != 0 {
        return Some(complement_at(neighbours, codes, list, at, smallest(both)));
    }
    let j = first_joined(neighbours, c)?;
    let k = smallest(neighbours[j] & c);
    Some(triple_at(neighbours, codes, list, at, j, k))
}

// The image rule: the next complementations until there are none.
pub fn run_rule(
    neighbours: &mut [u64],
    codes: &mut [u8],
    list: &mut [u8],
    start: Tracked,
) -> Tracked
    requires { (start.count ≡ 0)
        × Tracking (length neighbours.old) (working neighbours.old codes.old list.old start) }
    ensures { Complemented (length neighbours.old)
        (working neighbours.old codes.old list.old start)
        (image_list (length neighbours.old) (working_record
        (working neighbours.old codes.old list.old start)))
        (working neighbours.new codes.new list.new result) }
{
    let mut at = start;
    while let Some(next) = next_moves(neighbours, codes, list, at) {
        at = next;
    }
    at
}
