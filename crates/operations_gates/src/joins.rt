// CZ on two vertices that are ready for it, in a record's buffers: edges between two sets of vertices are flipped.
ghost use Rattle.std.specs.Prelude.{◌&&◌, cond, ◌≢◌, ◌≡◌, ℕ, ◌<◌, eqb, length};
ghost use Rattle.clifford.specs.Clifford.{bit_c, clifford_of};
ghost use Rattle.operations.specs.internal.ReadyPairs.{Ready};
ghost use Rattle.operations.specs.internal.GraphSteps.{cz_record};
ghost use Rattle.operations.specs.internal.InPlace.{Rewritten, Unrefused, record_in};
ghost use Rattle.record.specs.Lent.{held_record};
ghost use Rattle.words.specs.Bits.{◌⊕◌, bit};

use clifford_impl::codes::Code;
use operations_rewriting::complements::put_before;
use record::graph::join_sets;
use words::{single, where_true};

// The vertices of the graph over which Z multiplies to Z at vertex a: a itself, or its neighbours where its code has
// C = 1.
fn reach_word(word: u64, code: u8, a: usize) -> u64
    requires { (code < 24) × (a < 64) }
    ensures { (q : ℕ) → bit result q ≡ cond (bit_c (clifford_of code)) (bit word q) (eqb q a) }
{
    let own = Code { index: code };
    if own.c_bit() { word } else { single(a) }
}

// Whether that product is minus Z at the vertex.
fn reach_minus(code: u8) -> bool
    requires { code < 24 }
    ensures { result ≡ cond (bit_c (clifford_of code)) (clifford_of code).sx (clifford_of code).sz }
{
    let own = Code { index: code };
    if own.c_bit() {
        code / 2 % 2 == 1
    } else {
        code % 2 == 1
    }
}

// The vertices that get Z before their codes: those of both sets, and those of one where the other has the sign.
fn turned_word(to_a: u64, to_b: u64, minus_a: bool, minus_b: bool) -> u64
    ensures { (q : ℕ) → bit result q
        ≡ (bit to_a q && bit to_b q) ⊕ ((minus_a && bit to_b q) ⊕ (minus_b && bit to_a q)) }
{
    (to_a & to_b) ^ (where_true(minus_a, to_b) ^ where_true(minus_b, to_a))
}

// CZ on a and b.
pub fn cz_ready(neighbours: &mut [u64], codes: &mut [u8], a: usize, b: usize)
    requires unrefused { Unrefused (record_in neighbours.old codes.old) }
    requires ready { Ready (held_record (record_in neighbours.old codes.old)) a b }
    requires a_in_bounds { (a < length neighbours.old) × (b < length neighbours.old) × (a ≢ b) }
    ensures { Rewritten neighbours.old codes.old (λ g. cz_record g a b)
        neighbours.new codes.new }
{
    let code_a = codes[a];
    let code_b = codes[b];
    let to_a = reach_word(neighbours[a], code_a, a);
    let to_b = reach_word(neighbours[b], code_b, b);
    let turned = turned_word(to_a, to_b, reach_minus(code_a), reach_minus(code_b));
    join_sets(neighbours, to_a, to_b);
    put_before(codes, turned, 2);
}
