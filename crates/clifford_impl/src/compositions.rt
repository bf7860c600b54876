// The composition of codes: a table, and its rows.
ghost use Rattle.std.specs.Prelude.{◌≡◌, ℕ, ◌+◌, ◌<◌, ◌≤◌, get_or};
ghost use Rattle.clifford.specs.Clifford.{clifford_of, code_of, then};

use crate::tables::THEN;

// The entry of the table.
pub fn entry(first: u8, next: u8) -> u8
    requires { (first < 24) × (next < 24) }
    ensures { (result ≡ code_of (then (clifford_of first) (clifford_of next))) × (result < 24) }
{
    let a = first as usize;
    let b = next as usize;
    THEN[24 * a + b]
}

// 24 entries of a table, from a place on.
fn entries(table: &[u8; 576], start: usize) -> [u8; 24]
    requires { start ≤ 552 }
    ensures { (b : ℕ) → b < 24 → get_or result b 0 ≡ get_or table.now (start + b) 0 }
{
    let mut row = [0; 24];
    for b in 0..24 {
        row[b] = table[start + b];
    }
    row
}

// The row of the table for a code that comes before others: entry b is the code and then b. The codes that loops put
// first, 2 and 6, have places that the compiler knows, and of the table it then keeps their 24 entries alone.
pub fn row(first: u8) -> [u8; 24]
    requires { first < 24 }
    ensures { (b : ℕ) → b < 24 → get_or result b 0 ≡ code_of (then (clifford_of first) (clifford_of b)) }
{
    match first {
        2 => {
            let table = THEN;
            entries(&table, 48)
        }
        6 => {
            let table = THEN;
            entries(&table, 144)
        }
        _ => {
            let table = THEN;
            entries(&table, 24 * (first as usize))
        }
    }
}
