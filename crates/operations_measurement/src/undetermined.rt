// A measurement that is not determined: the code at the vertex sends X, Z or Y to the letter; a pivot or a complementation
// brings Z there where it is X or Y, and the vertex is isolated.
ghost use Rattle.std.specs.Prelude.{◌&&◌, false, true, ◌↔◌, ◌≡◌, ℕ, ◌<◌, ◌≤◌, ◌^◌, get_or, length};
ghost use Rattle.buffers.specs.Buffers.{tabulate};
ghost use Rattle.clifford.specs.Clifford.{clifford_of, code_of, image, then};
ghost use Rattle.clifford.specs.Vectors.{codes_of};
ghost use Rattle.operations.specs.internal.KeptGroups.{GroupMeasured};
ghost use Rattle.operations.specs.internal.GraphSteps.{hadamard_code, pauli_code};
ghost use Rattle.operations.specs.Measurement.{is_determined};
ghost use Rattle.operations.specs.internal.InPlace.{Unrefused, record_in};
ghost use Rattle.pauli.specs.declared.Letter.TheVariants.{I, X, Y, Z};
ghost use Rattle.record.specs.Lent.{held_rows};
ghost use Rattle.words.specs.Bits.{bit, is_odd, put, ◌⊕◌};

use crate::isolation::{isolate, with_hadamard};
use crate::parting::{complement_parted, pivot_parted};
use clifford_impl::codes::Code;
use operations_rewriting::complements::put_before;
use pauli::Letter;
use words::{largest, where_true};

// Whether the code sends a letter to plus or minus another.
fn sends(code: u8, from: Letter, to: Letter) -> bool
    requires { code < 24 }
    ensures { (result ≡ true) ↔ (image (clifford_of code) from ≡ to) }
{
    Code { index: code }.image(from).letter == to
}

// The codes after Z is measured at q, which has no edges left and had those to `near`: there a Hadamard comes before the
// code, with the sign, and 2, which is Z, before the codes of the others where the sign is minus.
fn turn_parted(codes: &mut [u8], near: u64, q: usize, outcome: bool)
    requires codes_len_bound { (length codes.old ≤ 64) × ((j : ℕ) → get_or codes.old j 0 < 24) }
    requires near_bound { (near < 2 ^ (length codes.old)) × (q < length codes.old) }
    ensures { codes.new ≡ tabulate (length codes.old) (λ j. code_of (put
        (λ j. then (pauli_code false ((outcome ⊕ is_odd (get_or codes.old q 0)) && bit near j))
        (codes_of codes.old j)) q
        (then (hadamard_code (outcome ⊕ is_odd (get_or codes.old q 0))) (codes_of codes.old q)) j)) }
{
    let own = codes[q];
    let t = outcome != (own % 2 == 1);
    let turned = with_hadamard(t, own);
    put_before(codes, where_true(t, near), 2);
    codes[q] = turned;
}

// Measures the letter to which the code at q sends X: a pivot with the largest neighbour, whose other neighbours are
// smaller then, brings Z there.
fn measure_x(neighbours: &mut [u64], codes: &mut [u8], q: usize, outcome: bool)
    requires unrefused { Unrefused (record_in neighbours.old codes.old) × (q < length neighbours.old) }
    requires fact { get_or neighbours.old q 0 ≡ 0 → ⊥ }
    ensures { GroupMeasured neighbours.old codes.old
        (image (codes_of codes.old q) X) q outcome neighbours.new codes.new }
{
    let k = largest(neighbours[q]);
    let near = pivot_parted(neighbours, codes, q, k);
    turn_parted(codes, near, q, outcome);
}

// Measures the letter to which the code at q sends Z.
fn measure_z(neighbours: &mut [u64], codes: &mut [u8], q: usize, outcome: bool)
    requires { Unrefused (record_in neighbours.old codes.old) × (q < length neighbours.old) }
    ensures { GroupMeasured neighbours.old codes.old
        (image (codes_of codes.old q) Z) q outcome neighbours.new codes.new }
{
    let minus = codes[q] % 2 == 1;
    isolate(neighbours, codes, q, outcome != minus);
}

// Measures the letter to which the code at q sends Y: complementing at q brings Z there.
fn measure_y(neighbours: &mut [u64], codes: &mut [u8], q: usize, outcome: bool)
    requires { Unrefused (record_in neighbours.old codes.old) × (q < length neighbours.old) }
    ensures { GroupMeasured neighbours.old codes.old
        (image (codes_of codes.old q) Y) q outcome neighbours.new codes.new }
{
    let near = complement_parted(neighbours, codes, q);
    turn_parted(codes, near, q, outcome);
}

// The group after a measurement of l at q that is not determined: l stands for X, Z or Y of the graph there.
pub fn measure_open(neighbours: &mut [u64], codes: &mut [u8], l: Letter, q: usize, bit: bool)
    requires unrefused { Unrefused (record_in neighbours.old codes.old) × (q < length neighbours.old) }
    requires q_value { is_determined (length neighbours.old) (held_rows (record_in neighbours.old codes.old)) l q
        ≡ false }
    requires fact { l ≡ I → ⊥ }
    ensures { GroupMeasured neighbours.old codes.old l q bit
        neighbours.new codes.new }
{
    if sends(codes[q], Letter::X, l) {
        measure_x(neighbours, codes, q, bit);
        return;
    }
    if sends(codes[q], Letter::Z, l) {
        measure_z(neighbours, codes, q, bit);
        return;
    }
    measure_y(neighbours, codes, q, bit);
}
