// The record read off rows that have X or Y at their own place and I or Z elsewhere.
ghost use Rattle.std.specs.Prelude.{◌≡◌, ℕ, ◌<◌, ◌≤◌, length};
ghost use Rattle.clifford.specs.Clifford.{code_of};
ghost use Rattle.record.specs.Lent.{code_numbers, neighbour_words};
ghost use Rattle.record.specs.Reduced.{plain_code, record_of, with_hadamard};
ghost use Rattle.stabilizer.specs.Groups.{Within};
ghost use Rattle.stabilizer.specs.internal.Tableau.{tableau};
ghost use Rattle.words.specs.Bits.{bit};

use clifford_impl::codes::Code;
use words::{has, put_bit};

// The code of a vertex: 0 for +X, 2 for -X, 4 for +Y, 6 for -Y; followed by 8 where a Hadamard was used.
fn vertex_code(hadamard: bool, y: bool, minus: bool) -> u8
    ensures { (result ≡ code_of (with_hadamard hadamard (plain_code y minus))) × (result < 24) }
{
    let index = 4 * (y as u8) + 2 * (minus as u8);
    if !hadamard {
        return index;
    }
    let turned = Code { index }.then(Code { index: 8 });
    turned.index
}

// Writes the record of rows that have X or Y at their own place and I or Z elsewhere.
pub fn write_record(
    rows: [[u64; 2]; 64],
    signs: u64,
    n: usize,
    hadamards: u64,
    neighbours: &mut [u64],
    codes: &mut [u8],
)
    requires n_bound { (n ≤ 64) × (length neighbours.old ≡ n) × (length codes.old ≡ n) }
    requires by_index { (j : ℕ) → j < n → Within n (tableau signs rows j) }
    ensures neighbours_after { neighbours.new
        ≡ neighbour_words n (record_of n (bit hadamards) (tableau signs rows)) }
    ensures codes_after { codes.new
        ≡ code_numbers n (record_of n (bit hadamards) (tableau signs rows)) }
{
    for q in 0..n {
        let row = rows[q];
        neighbours[q] = put_bit(row[0], q, false);
        codes[q] = vertex_code(has(hadamards, q), has(row[0], q), has(signs, q));
    }
}
