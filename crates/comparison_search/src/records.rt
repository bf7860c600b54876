// A record as the comparison takes it: its generators, and the codes that undo its codes.
ghost use Rattle.std.specs.Prelude.{◌≡◌, ℕ, ◌<◌, ◌≤◌, get_or, length};
ghost use Rattle.clifford.specs.Clifford.{code_of, inverse};
ghost use Rattle.clifford.specs.Vectors.{codes_of};
ghost use Rattle.comparison.specs.internal.Setting.{Codes, SoundRecord, generators_in, generators_of, held_generators};

use crate::rows::row_of;
use clifford_impl::codes::Code;
use clifford_impl::rows::{act_on, action_of};
use pauli::Generator;
use words::single;

// The generators of a record.
pub fn generators(n: usize, neighbours: &[u64], codes: &[u8], rows: &mut [[u64; 3]; 64])
    requires { (n ≤ 64) × SoundRecord n neighbours.now codes.now × (length rows.old ≡ 64) }
    ensures { (j : ℕ) → j < n → generators_of (generators_in rows.new) j
        ≡ held_generators n neighbours.now codes.now j }
{
    let by = action_of(codes);
    for j in 0..n {
        let g = Generator {
            minus: false,
            z: neighbours[j],
            x: single(j),
        };
        let sent = act_on(g, by);
        rows[j] = row_of(sent);
    }
}

// The codes that undo a record's.
pub fn inverses(n: usize, codes: &[u8]) -> [u8; 64]
    requires { (n ≤ 64) × (length codes.now ≡ n) × Codes codes.now }
    ensures { ((q : ℕ) → q < n → get_or result q 0 ≡ code_of (inverse (codes_of codes.now q))) × Codes result }
{
    let mut all = [0u8; 64];
    for q in 0..n {
        let code = Code { index: codes[q] };
        let undone = code.inverse();
        all[q] = undone.index;
    }
    all
}
