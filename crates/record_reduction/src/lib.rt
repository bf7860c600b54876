// Reduction by value on an array of 64 rows of two words, z and x, beside one word of signs.
#![tactic(auto)]

mod passes;
mod records;
mod shears;

ghost use Rattle.std.specs.Prelude.{cond, not, ◌≡◌, ℕ, ◌≤◌, length};
ghost use Rattle.record.specs.Lent.{code_numbers, neighbour_words};
ghost use Rattle.record.specs.Reduced.{reduced};
ghost use Rattle.record_reduction.specs.internal.Reducible.{Reducible};
ghost use Rattle.record_reduction.specs.internal.Passes.{Loaded};
ghost use Rattle.stabilizer.specs.Lists.{dependent, rows};
ghost use Rattle.stabilizer.specs.internal.Tableau.{tableau};

use crate::passes::odd_pairs;
use crate::records::write_record;
use crate::shears::{flip_odd, minus_word};
use words::{flip_where, has, mask, odd, put_bit, smallest, where_true, without_smallest};

// The rows of a lent list, with a word for their signs.
pub fn load_list(n: usize, signs: &[u8], z: &[u64], x: &[u64], minuses: &mut u64) -> [[u64; 2]; 64]
    requires n_bound { (n ≤ 64) × (length signs.now ≡ n) × (length z.now ≡ n) × (length x.now ≡ n) }
    requires minuses_value { minuses.old ≡ 0 }
    ensures { (j : ℕ) → tableau minuses.new result j ≡ rows (record {
      n = n;
      signs = signs.now;
      z = z.now;
      x = x.now;
    }) j }
{
    let mut loaded = [[0, 0]; 64];
    for j in 0..n {
        loaded[j] = [z[j], x[j]];
        *minuses = flip_where(*minuses, j, signs[j] % 2 == 1);
    }
    loaded
}

// The reduced record of the tableau's group, where its rows are independent: then it is written, and the answer is
// true. All work is done on the array and the word of signs that were passed by value, and no call in it has the
// array but the last. Between the first loop and the end the signs are relative to the rows' pairs of Y; at the end
// no row has a pair. The word pivots names the columns that have a pivot, and so their rows.
pub fn reduce_tableau(
    mut rows: [[u64; 2]; 64],
    mut signs: u64,
    n: usize,
    neighbours: &mut [u64],
    codes: &mut [u8],
) -> bool
    requires le_n { (1 ≤ n) × (n ≤ 64) × (length neighbours.old ≡ n) × (length codes.old ≡ n) }
    requires loaded { Loaded n (tableau signs rows) }
    ensures value { result ≡ not (dependent n (tableau signs rows)) }
    ensures neighbours_after { neighbours.new
        ≡ cond result (neighbour_words n (reduced n (tableau signs rows))) neighbours.old }
    ensures codes_after { codes.new
        ≡ cond result (code_numbers n (reduced n (tableau signs rows))) codes.old }
{
    let all = mask(n);
    for k in 0..n {
        let [z, x] = rows[k];
        signs = flip_where(signs, k, odd_pairs(z, x));
    }
    let mut pivots = 0;
    let mut hadamards = 0;
    for round in 0..2usize {
        // A pass over the columns without a pivot: where an unused row has x bit q, column q gets its pivot, row q.
        for q in 0..n {
            if !has(pivots, q) {
                // The rows that have x bit q.
                let mut holders = 0;
                for j in (0..n).rev() {
                    let [_, x] = rows[j];
                    holders = 2 * holders + ((x >> q) & 1);
                }
                let free = holders ^ (holders & pivots);
                if free != 0 {
                    // Row i lends its x bit to row q, where that one lacks it.
                    if !has(holders, q) {
                        let i = smallest(free);
                        let [z2, x2] = rows[i];
                        let [z, x] = rows[q];
                        let minus = odd(minus_word(z, x, z2, x2));
                        rows[q] = [z ^ z2, x ^ x2];
                        signs = flip_where(signs, q, has(signs, i) != minus);
                    }
                    // Row q clears the bit from every other row.
                    let [by_z, by_x] = rows[q];
                    let mut rest = put_bit(holders, q, false);
                    signs ^= where_true(has(signs, q), rest);
                    while rest != 0 {
                        let i = smallest(rest);
                        let [z, x] = rows[i];
                        let minus = minus_word(z, x, by_z, by_x);
                        rows[i] = [z ^ by_z, x ^ by_x];
                        signs = flip_odd(signs, i, minus);
                        rest = without_smallest(rest);
                    }
                    pivots = put_bit(pivots, q, true);
                }
            }
        }
        // Hadamards on the columns without a pivot: z and x are exchanged there, and a sign flips for each Y.
        if round == 0 {
            hadamards = all ^ pivots;
            for i in 0..n {
                let [z, x] = rows[i];
                let swapped = (z ^ x) & hadamards;
                let minus = odd((z & x) & hadamards);
                rows[i] = [z ^ swapped, x ^ swapped];
                signs = flip_where(signs, i, minus);
            }
        }
    }
    if pivots != all {
        return false;
    }
    write_record(rows, signs, n, hadamards, neighbours, codes);
    true
}

// The reduced record of a lent list, where its generators are independent: then it is written, and the answer is true.
pub fn reduce_list(
    n: usize,
    signs: &[u8],
    z: &[u64],
    x: &[u64],
    neighbours: &mut [u64],
    codes: &mut [u8],
) -> bool
    requires reducible { Reducible (record { n = n; signs = signs.now; z = z.now; x = x.now }) }
    requires neighbours_len { (length neighbours.old ≡ n) × (length codes.old ≡ n) }
    ensures value { result ≡ not (dependent n (rows (record {
      n = n;
      signs = signs.now;
      z = z.now;
      x = x.now;
    }))) }
    ensures neighbours_after { neighbours.new ≡ cond result (neighbour_words n (reduced n (rows (record {
      n = n;
      signs = signs.now;
      z = z.now;
      x = x.now;
    })))) neighbours.old }
    ensures codes_after { codes.new ≡ cond result (code_numbers n (reduced n (rows (record {
      n = n;
      signs = signs.now;
      z = z.now;
      x = x.now;
    })))) codes.old }
{
    let mut minuses = 0;
    let rows = load_list(n, signs, z, x, &mut minuses);
    reduce_tableau(rows, minuses, n, neighbours, codes)
}
