// Gates and CZ on a record in its buffers that leave it unreduced: a gate composes a code, and CZ prepares the two vertices
// that it names.
ghost use Rattle.std.specs.Prelude.{true, ◌≢◌, ◌≡◌, ◌<◌, length};
ghost use Rattle.clifford.specs.Clifford.{clifford_of};
ghost use Rattle.operations.specs.internal.KeptGroups.{GroupHeld, GroupKept};
ghost use Rattle.operations.specs.internal.ReadyPairs.{Ready, crossed};
ghost use Rattle.operations.specs.Cz.{cz_rows};
ghost use Rattle.operations.specs.Gates.{gated};
ghost use Rattle.operations.specs.internal.InPlace.{Unrefused, record_in};
ghost use Rattle.record.specs.Lent.{held_record, held_rows};
ghost use Rattle.record.specs.Records.{rows_of};

use crate::gate_code;
use crate::joins::cz_ready;
use crate::settling::normalise;
use clifford_impl::codes::Code;
use operations_rewriting::complements::complement_record;
use operations_rewriting::pivots::pivot_record;
use words::has;

// Whether a code has C = D = 1.
fn is_crossed(code: u8) -> bool
    requires { code < 24 }
    ensures { result ≡ crossed (clifford_of code) }
{
    let own = Code { index: code };
    own.c_bit() & own.d_bit()
}

// Whether CZ can act on the graph at a and b as they are.
fn is_ready(neighbours: &[u64], codes: &[u8], a: usize, b: usize) -> bool
    requires unrefused { Unrefused (record_in neighbours.now codes.now) }
    requires a_in_bounds { (a < length neighbours.now) × (b < length neighbours.now) }
    ensures { result ≡ true → Ready (held_record (record_in neighbours.now codes.now)) a b }
{
    let first = codes[a];
    let second = codes[b];
    if is_crossed(first) {
        return false;
    }
    if is_crossed(second) {
        return false;
    }
    let here = Code { index: first };
    if !here.c_bit() {
        return true;
    }
    let there = Code { index: second };
    if !there.c_bit() {
        return true;
    }
    !has(neighbours[a], b)
}

// A complementation where the code is crossed.
fn uncross(neighbours: &mut [u64], codes: &mut [u8], a: usize)
    requires { Unrefused (record_in neighbours.old codes.old) × (a < length neighbours.old) }
    ensures { GroupKept neighbours.old codes.old
        neighbours.new codes.new }
{
    if is_crossed(codes[a]) {
        complement_record(neighbours, codes, a);
    }
}

// A pivot where the two are joined.
fn part(neighbours: &mut [u64], codes: &mut [u8], a: usize, b: usize)
    requires unrefused { Unrefused (record_in neighbours.old codes.old) }
    requires a_in_bounds { (a < length neighbours.old) × (b < length neighbours.old) }
    ensures { GroupKept neighbours.old codes.old
        neighbours.new codes.new }
{
    if has(neighbours[a], b) {
        pivot_record(neighbours, codes, a, b);
    }
}

// Both codes uncrossed: a again, since a complementation at b can cross the code at a.
fn uncross_both(neighbours: &mut [u64], codes: &mut [u8], a: usize, b: usize)
    requires unrefused { Unrefused (record_in neighbours.old codes.old) }
    requires a_in_bounds { (a < length neighbours.old) × (b < length neighbours.old) }
    ensures { GroupKept neighbours.old codes.old
        neighbours.new codes.new }
{
    uncross(neighbours, codes, a);
    uncross(neighbours, codes, b);
    uncross(neighbours, codes, a);
}

// The two parted where they are not ready, and the record reduced where that does not help.
fn part_both(neighbours: &mut [u64], codes: &mut [u8], a: usize, b: usize)
    requires unrefused { Unrefused (record_in neighbours.old codes.old) }
    requires a_in_bounds { (a < length neighbours.old) × (b < length neighbours.old) }
    ensures group_kept { GroupKept neighbours.old codes.old
        neighbours.new codes.new }
    ensures ready { Ready (held_record (record_in neighbours.new codes.new)) a b }
{
    if is_ready(neighbours, codes, a, b) {
        return;
    }
    part(neighbours, codes, a, b);
    if is_ready(neighbours, codes, a, b) {
        return;
    }
    normalise(neighbours, codes);
}

// The two made ready for CZ.
fn make_ready(neighbours: &mut [u64], codes: &mut [u8], a: usize, b: usize)
    requires unrefused { Unrefused (record_in neighbours.old codes.old) }
    requires a_in_bounds { (a < length neighbours.old) × (b < length neighbours.old) }
    ensures group_kept { GroupKept neighbours.old codes.old
        neighbours.new codes.new }
    ensures ready { Ready (held_record (record_in neighbours.new codes.new)) a b }
{
    if is_ready(neighbours, codes, a, b) {
        return;
    }
    uncross_both(neighbours, codes, a, b);
    part_both(neighbours, codes, a, b);
}

// CZ on a and b: the group after it.
pub fn cz_unsettled(neighbours: &mut [u64], codes: &mut [u8], a: usize, b: usize)
    requires unrefused { Unrefused (record_in neighbours.old codes.old) }
    requires a_in_bounds { (a < length neighbours.old) × (b < length neighbours.old) × (a ≢ b) }
    ensures { GroupHeld (length neighbours.old)
        (cz_rows a b (held_rows (record_in neighbours.old codes.old)))
        neighbours.new codes.new }
{
    make_ready(neighbours, codes, a, b);
    cz_ready(neighbours, codes, a, b);
}

// Code k after the code held at q: the group after it.
pub fn gate_unsettled(neighbours: &[u64], codes: &mut [u8], q: usize, k: u8)
    requires unrefused { Unrefused (record_in neighbours.now codes.old) }
    requires q_in_bounds { (q < length neighbours.now) × (k < 24) }
    ensures { GroupHeld (length neighbours.now)
        (rows_of (length neighbours.now) (gated (held_record (record_in neighbours.now codes.old)) q (clifford_of k)))
        neighbours.now codes.new }
{
    gate_code(codes, q, k);
}
