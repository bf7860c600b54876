// A record brought to its reduced form in its buffers, by steps on the graph and its codes that keep the group.
ghost use Rattle.std.specs.Prelude.{◌&&◌, ◌||◌, not, ◌≡◌, ◌/◌, ◌<◌, ◌^◌, eqb, leb, length};
ghost use Rattle.operations.specs.internal.KeptGroups.{Nearer, Normalised, unsettled};
ghost use Rattle.operations.specs.internal.GraphSteps.{sign_moved};
ghost use Rattle.operations.specs.internal.InPlace.{Rewritten, Unrefused, record_in};
ghost use Rattle.words.specs.Bits.{is_odd};
ghost use Rattle.words.specs.Search.{first};
ghost use Rattle.operations_gates.specs.internal.Watching.{Advanced, Elsewhere, Suspected, Watched};

use crate::suspecting::suspects;
use operations_rewriting::complements::{complement_record, recode};
use operations_rewriting::pivots::pivot_record;
use words::{largest, single, smallest, without_smallest};

// What a step may have changed: at the vertices `all`, and whether a code is odd, or 8 or more, at `ends` alone.
#[derive(Clone, Copy)]
struct Touched {
    all: u64,
    ends: u64,
}

// The vertices still to be looked at, and all those that can be out of place by their codes.
#[derive(Clone, Copy)]
struct Looked {
    rest: u64,
    watch: u64,
}

// Whether vertex j, with this code and this neighbour word, is out of place.
fn is_unsettled(word: u64, code: u8, j: usize) -> bool
    requires { j < 64 }
    ensures { result ≡ (leb 12 code || (is_odd code || (leb 8 code && not (eqb (word / 2 ^ j) 0)))) }
{
    (12 <= code) | ((code % 2 == 1) | ((8 <= code) & (word >> j != 0)))
}

// X before the code of vertex a, and Z before those of its neighbours.
fn move_sign(neighbours: &[u64], codes: &mut [u8], a: usize)
    requires { Unrefused (record_in neighbours.now codes.old) × (a < length neighbours.now) }
    ensures { Rewritten neighbours.now codes.old (λ g. sign_moved g a)
        neighbours.now codes.new }
{
    recode(neighbours, codes, a, 1, 2);
}

// One step at the smallest vertex out of place: where C = 1, D = 0 and it has a larger neighbour, a pivot with the
// largest; with another code from 12, a complementation; else the code is odd, and its sign is moved. Answers what it
// may have changed: 6 or 2 before the code of a neighbour leave the image of Z as it is.
fn settle_at(neighbours: &mut [u64], codes: &mut [u8], j: usize) -> Touched
    requires unrefused { Unrefused (record_in neighbours.old codes.old) × (j < length neighbours.old) }
    requires j_value { j ≡ first (length neighbours.old) (unsettled neighbours.old codes.old) }
    ensures nearer { Nearer neighbours.old codes.old
        neighbours.new codes.new }
    ensures elsewhere { Elsewhere result.all result.ends neighbours.old codes.old
        neighbours.new codes.new }
{
    let word = neighbours[j];
    let code = codes[j];
    if (8 <= code) & (((code < 12) | (20 <= code)) & (word >> j != 0)) {
        let k = largest(word);
        let others = neighbours[k];
        pivot_record(neighbours, codes, j, k);
        Touched {
            all: word | others,
            ends: single(j) | single(k),
        }
    } else if 12 <= code {
        complement_record(neighbours, codes, j);
        let own = single(j);
        Touched {
            all: word | own,
            ends: own,
        }
    } else {
        move_sign(neighbours, codes, j);
        let own = single(j);
        Touched {
            all: word | own,
            ends: own,
        }
    }
}

// A look at the smallest vertex that may be out of place: if it is, a step, and of what the step may have changed those
// are added that can be out of place by their codes; else it is dropped.
fn settle_next(neighbours: &mut [u64], codes: &mut [u8], rest: u64, watch: u64) -> Looked
    requires unrefused { Unrefused (record_in neighbours.old codes.old) }
    requires suspected { Suspected neighbours.old codes.old watch }
    requires watched { Watched neighbours.old codes.old rest × (rest ≡ 0 → ⊥) }
    ensures { Advanced neighbours.old codes.old rest
        neighbours.new codes.new result.rest result.watch }
{
    let j = smallest(rest);
    if !is_unsettled(neighbours[j], codes[j], j) {
        return Looked {
            rest: without_smallest(rest),
            watch,
        };
    }
    let touched = settle_at(neighbours, codes, j);
    let seen = watch | touched.ends;
    Looked {
        rest: rest | (seen & touched.all),
        watch: seen,
    }
}

// Such steps until no vertex is out of place: then the buffers hold the reduced record of the group. `touched` has every
// vertex that is out of place before, `suspected` every one with a code that is odd, or 8 or more.
pub fn settle_all(neighbours: &mut [u64], codes: &mut [u8], touched: u64, suspected: u64)
    requires unrefused { Unrefused (record_in neighbours.old codes.old) }
    requires suspected { Suspected neighbours.old codes.old suspected }
    requires watched { Watched neighbours.old codes.old touched }
    ensures { Normalised neighbours.old codes.old
        neighbours.new codes.new }
{
    let mut rest = touched;
    let mut watch = suspected;
    while rest != 0 {
        let next = settle_next(neighbours, codes, rest, watch);
        rest = next.rest;
        watch = next.watch;
    }
}

// The same where nothing is known of the record.
pub fn normalise(neighbours: &mut [u64], codes: &mut [u8])
    requires { Unrefused (record_in neighbours.old codes.old) }
    ensures { Normalised neighbours.old codes.old
        neighbours.new codes.new }
{
    let touched = suspects(codes);
    settle_all(neighbours, codes, touched, touched);
}
