// Gates and CZ on a record in its buffers.
#![tactic(auto)]

mod joins;
pub mod settling;
pub mod suspecting;
pub mod unsettled;

ghost use Rattle.std.specs.Prelude.{◌≢◌, ◌≡◌, ℕ, ◌<◌, get_or, length, set};
ghost use Rattle.clifford.specs.Clifford.{clifford_of, code_of, then};
ghost use Rattle.clifford.specs.Vectors.{codes_of};
ghost use Rattle.operations_gates.specs.internal.Watching.{Suspected, Watched};
ghost use Rattle.operations.specs.Cz.{cz_rows};
ghost use Rattle.operations.specs.Gates.{gated};
ghost use Rattle.operations.specs.internal.InPlace.{Rewritten, Unrefused, record_in};
ghost use Rattle.record.specs.Records.{rows_of};
ghost use Rattle.record.specs.Reduced.{reduced};

use crate::joins::cz_ready;
use crate::settling::settle_all;
use clifford_impl::numbers::compose;
use words::single;

// Applies code k after the code held at q.
pub fn gate_code(codes: &mut [u8], q: usize, k: u8)
    requires { (q < length codes.old) × ((t : ℕ) → get_or codes.old t 0 < 24) × (k < 24) }
    ensures { codes.new ≡ set codes.old q
        (code_of (then (codes_of codes.old q) (clifford_of k))) }
{
    codes[q] = compose(codes[q], k);
}

// Gate: code k after the code held at q, and the reduced record. Before it `touched` has every vertex that is out of place,
// and every one with a code that is odd, or 8 or more; the gate touches q.
pub fn gate_record(neighbours: &mut [u64], codes: &mut [u8], q: usize, k: u8, touched: u64)
    requires unrefused { Unrefused (record_in neighbours.old codes.old) }
    requires q_in_bounds { (q < length neighbours.old) × (k < 24) }
    requires suspected { Suspected neighbours.old codes.old touched × Watched neighbours.old codes.old touched }
    ensures { Rewritten neighbours.old codes.old
        (λ g. reduced (length neighbours.old)
        (rows_of (length neighbours.old) (gated g q (clifford_of k))))
        neighbours.new codes.new }
{
    gate_code(codes, q, k);
    let all = touched | single(q);
    settle_all(neighbours, codes, all, all);
}

// CZ on a and b, and the reduced record. Before it `touched` has every vertex that is out of place, and every one with a code
// that is odd, or 8 or more.
pub fn cz_record(neighbours: &mut [u64], codes: &mut [u8], a: usize, b: usize, touched: u64)
    requires unrefused { Unrefused (record_in neighbours.old codes.old) }
    requires a_in_bounds { (a < length neighbours.old) × (b < length neighbours.old) × (a ≢ b) }
    requires suspected { Suspected neighbours.old codes.old touched × Watched neighbours.old codes.old touched }
    ensures { Rewritten neighbours.old codes.old
        (λ g. reduced (length neighbours.old)
        (cz_rows a b (rows_of (length neighbours.old) g)))
        neighbours.new codes.new }
{
    settle_all(neighbours, codes, touched, touched);
    cz_ready(neighbours, codes, a, b);
}
