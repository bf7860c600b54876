// Linear equations modulo 2 over the unknowns of 64 qubits, four for each, whose sum is to be 0: four words, and unknown
// l of qubit q is bit q of word l. An equation is passed as a value: it is small, and is written whole.
ghost use Rattle.std.specs.Prelude.{◌≡◌, false, true, ℕ, ◌<◌, ◌≤◌};
ghost use Rattle.comparison.specs.internal.Equations.{
  Bound,
  EmptyFrom,
  Inserted,
  QubitTested,
  Size,
  Triangular,
  added,
  assignment_of,
  equation_of,
  fails,
  equations_in,
  unknown,
};
ghost use Rattle.comparison_search.specs.internal.Rewriting.{Rewritten, Summed};

use words::{has, odd, smallest, without_smallest};

// The sum of two equations.
fn add(e: [u64; 4], f: [u64; 4]) -> [u64; 4]
    ensures { equation_of result ≡ added (equation_of e) (equation_of f) }
{
    [e[0] ^ f[0], e[1] ^ f[1], e[2] ^ f[2], e[3] ^ f[3]]
}

// Whether the unknowns give the sum 1.
fn fails(e: [u64; 4], w: [u64; 4]) -> bool
    ensures { result ≡ fails (equation_of e) (assignment_of w) }
{
    odd(((e[0] & w[0]) ^ (e[1] & w[1])) ^ ((e[2] & w[2]) ^ (e[3] & w[3])))
}

// Whether an equation has no unknown.
fn empty(e: [u64; 4]) -> bool
    ensures j_value { result ≡ true → (j : ℕ) → unknown (equation_of e) j ≡ false }
    ensures fact { result ≡ false → ((j : ℕ) → unknown (equation_of e) j ≡ false) → ⊥ }
{
    ((e[0] | e[1]) | (e[2] | e[3])) == 0
}

// The number of bits of a word.
fn size(w: u64) -> usize
    ensures { (result ≤ 64) × Size w result }
{
    64 - u64::leading_zeros(w) as usize
}

// The number after that of the last unknown; 0 where there is none.
fn bound(e: [u64; 4]) -> usize
    ensures { (result ≤ 256) × Bound (equation_of e) result }
{
    let s = size((e[0] | e[1]) | (e[2] | e[3]));
    if s == 0 {
        return 0;
    }
    let q = s - 1;
    if has(e[3], q) {
        return 4 * q + 4;
    }
    if has(e[2], q) {
        return 4 * q + 3;
    }
    if has(e[1], q) {
        return 4 * q + 2;
    }
    4 * q + 1
}

// An equation with those equations of the table added whose last unknown is unknown l of a marked qubit.
fn add_rows(table: &[[u64; 4]; 256], marked: u64, l: usize, e: [u64; 4]) -> [u64; 4]
    requires { l < 4 }
    ensures { Summed (equations_in table.now) (equation_of e) (equation_of result) }
{
    let mut left = e;
    let mut rest = marked;
    while rest != 0 {
        let q = smallest(rest);
        let p = table[4 * q + l];
        let sum = add(left, p);
        left = sum;
        rest = without_smallest(rest);
    }
    left
}

// Stores an equation, or a sum of it with stored ones, at the place of its last unknown, or nothing.
fn store(table: &mut [[u64; 4]; 256], e: [u64; 4])
    requires { Triangular (equations_in table.old) }
    ensures { Inserted (equations_in table.old) (equation_of e) (equations_in table.new) }
{
    let mut left = e;
    let mut i = bound(left);
    while 0 < i {
        let p = table[i - 1];
        if empty(p) {
            table[i - 1] = left;
            return;
        }
        let sum = add(left, p);
        left = sum;
        i = bound(left);
    }
}

// Whether an equation has unknown i.
fn has_unknown(e: [u64; 4], i: usize) -> bool
    requires { i < 256 }
    ensures { result ≡ unknown (equation_of e) i }
{
    has(e[i % 4], i / 4)
}

// Equation i added to those after it, up to an end, that have unknown i.
fn clear(table: &mut [[u64; 4]; 256], i: usize, end: usize)
    requires { Triangular (equations_in table.old) × (i < 256) × (end ≤ 256) }
    ensures { Rewritten (equations_in table.old) (equations_in table.new) }
{
    let p = table[i];
    for k in i + 1..end {
        let e = table[k];
        if has_unknown(e, i) {
            table[k] = add(e, p);
        }
    }
}

// Adds an equation on n qubits to the table. From 8 qubits on no other equation of the table has the last unknown of one,
// so that at most one for each unknown is to be added to what comes; on fewer that costs more than it saves. Nothing but the
// time depends on it.
pub fn insert(table: &mut [[u64; 4]; 256], n: usize, e: [u64; 4])
    requires { (n ≤ 64) × Triangular (equations_in table.old) }
    ensures { Inserted (equations_in table.old) (equation_of e) (equations_in table.new) }
{
    if n < 8 {
        store(table, e);
        return;
    }
    let a = add_rows(table, e[0], 0, e);
    let b = add_rows(table, e[1], 1, a);
    let c = add_rows(table, e[2], 2, b);
    let left = add_rows(table, e[3], 3, c);
    let i = bound(left);
    if i == 0 {
        return;
    }
    store(table, left);
    clear(table, i - 1, 4 * n);
}

// Whether an equation of qubit q fails: one whose last unknown is of qubit q.
pub fn broken(table: &[[u64; 4]; 256], q: usize, w: [u64; 4]) -> bool
    requires { q < 64 }
    ensures { QubitTested (equations_in table.now) q (assignment_of w) result }
{
    table[4 * q..4 * q + 4].iter().any(|e| fails(*e, w))
}

// A table without equations, of one that has none from an end on.
pub fn wipe(table: &mut [[u64; 4]; 256], end: usize)
    requires { (end ≤ 256) × EmptyFrom end (equations_in table.old) }
    ensures { EmptyFrom 0 (equations_in table.new) }
{
    for row in &mut table[..end] {
        *row = [0; 4];
    }
}
