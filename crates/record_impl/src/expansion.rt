// The generators of a record, into lent buffers.
ghost use Rattle.std.specs.Prelude.{List, ◌≡◌, ℕ, ◌<◌, ◌≤◌, ◌^◌, get_or, length};
ghost use Rattle.clifford.specs.Vectors.{codes_of};
ghost use Rattle.clifford_impl.specs.internal.Actions.{ActsAs};
ghost use Rattle.pauli.specs.internal.Rows.{generator_of};
ghost use Rattle.record.specs.Lent.{held_rows, lent_record};
ghost use Rattle.record.specs.Records.{record_row};
ghost use Rattle.stabilizer.specs.Lists.{list_of};
ghost use Rattle.words.specs.Bits.{bit};

use buffers::sign_digit;
use clifford_impl::rows::{Action, act_on, action_of};
use pauli::Generator;
use words::single;

// Generator j: X at j and Z at the neighbours of j, sign plus, each place then sent through its vertex's code.
fn expanded_row(neighbours: &[u64], by: Action, j: usize) -> Generator
    requires { (j < length neighbours.now) × (j < 64) }
    ensures { (codes : List ℕ) → ActsAs (codes_of codes) by
        → generator_of result ≡ record_row 64 (λ i. bit (get_or neighbours.now i 0)) (codes_of codes) j }
{
    let plus = Generator {
        minus: false,
        z: neighbours[j],
        x: single(j),
    };
    act_on(plus, by)
}

// Expansion into three lent buffers.
pub fn expand_into(
    n: usize,
    neighbours: &[u64],
    codes: &[u8],
    signs: &mut [u8],
    z: &mut [u64],
    x: &mut [u64],
)
    requires n_bound { (n ≤ 64) × (length neighbours.now ≡ n) × (length codes.now ≡ n) }
    requires by_index { ((q : ℕ) → get_or codes.now q 0 < 24) × ((j : ℕ) → get_or neighbours.now j 0 < 2 ^ n) }
    requires signs_len { (length signs.old ≡ n) × (length z.old ≡ n) × (length x.old ≡ n) }
    ensures signs_after { signs.new ≡ (list_of n (held_rows (lent_record n neighbours.now
        codes.now))).signs }
    ensures z_after { z.new ≡ (list_of n (held_rows (lent_record n neighbours.now
        codes.now))).z }
    ensures x_after { x.new ≡ (list_of n (held_rows (lent_record n neighbours.now
        codes.now))).x }
{
    let by = action_of(codes);
    for j in 0..n {
        let g = expanded_row(neighbours, by, j);
        signs[j] = sign_digit(g.minus);
        z[j] = g.z;
        x[j] = g.x;
    }
}
