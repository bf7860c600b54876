// The public call on products of rows, which need neither commute nor be independent.
ghost use Rattle.buffers.specs.internal.Numbers.{number_of};
ghost use Rattle.std.specs.Prelude.{◌≡◌, ◌<◌, get_or, length};
ghost use Rattle.buffers.specs.Calls.{Call};
ghost use Rattle.buffers.specs.Refusals.{first_fitting};
ghost use Rattle.pauli.specs.Pauli.{signed_row};
ghost use Rattle.pauli.specs.internal.Rows.{pauli_of};
ghost use Rattle.calls.specs.Products.{chosen_product, product_call, product_lines};
ghost use Rattle.words.specs.Bits.{is_odd};

use buffers::refusals::{Refusal, refuses_shape};
use pauli::Row;
use stabilizer_impl::checks::form_refusal;
use words::{has, stray};

// The first line that holds; `Ok` where none does. Lines 2 and 4 come before the test of the word that chooses, 6 after
// it.
fn product_refusal(n: u64, signs: &[u8], z: &[u64], x: &[u64], chosen: u64) -> Result<(), Refusal>
    ensures { number_of result ≡ first_fitting (product_lines
        (record { n = n; signs = signs.now; z = z.now; x = x.now }) chosen) }
{
    let form = form_refusal(n, signs, z, x, false);
    if refuses_shape(form) {
        return form;
    }
    if stray(chosen, n as usize) {
        return Err(Refusal::Stray);
    }
    form
}

// Row j of a list: a minus sign is two quarter turns.
fn row_at(signs: &[u8], z: &[u64], x: &[u64], j: usize) -> Row
    requires j_in_bounds { (j < length signs.now) × (j < length z.now) × (j < length x.now) }
    requires j_bound { get_or signs.now j 0 < 2 }
    ensures { pauli_of result ≡ signed_row (is_odd (get_or signs.now j 0)) (get_or z.now j 0)
        (get_or x.now j 0) }
{
    let sign = signs[j] as u64;
    Row {
        phase: 2 * sign,
        z: z[j],
        x: x[j],
    }
}

// The product of the chosen rows, in index order, its phase from 0 to 3.
fn chosen_product(n: usize, signs: &[u8], z: &[u64], x: &[u64], chosen: u64) -> Row
    requires { first_fitting (product_lines
        (record { n = n; signs = signs.now; z = z.now; x = x.now }) chosen) ≡ 0 }
    ensures { (pauli_of result ≡ chosen_product
        (record { n = n; signs = signs.now; z = z.now; x = x.now }) chosen)
        × (result.phase < 4) }
{
    let mut product = Row {
        phase: 0,
        z: 0,
        x: 0,
    };
    for j in 0..n {
        if has(chosen, j) {
            let row = row_at(signs, z, x, j);
            product = product.times(row);
        }
    }
    product
}

// The product of the rows that a word chooses, and the power of i in front of its letters.
pub fn product(
    n: u64,
    signs: &[u8],
    z: &[u64],
    x: &[u64],
    chosen: u64,
    product_z: &mut u64,
    product_x: &mut u64,
    phase: &mut u8,
) -> Result<(), Refusal>
    ensures { Call (product_call
        (record { n = n; signs = signs.now; z = z.now; x = x.now }) chosen
        product_z.old product_x.old phase.old
        product_z.new product_x.new phase.new) (number_of result) }
{
    product_refusal(n, signs, z, x, chosen)?;
    let row = chosen_product(n as usize, signs, z, x, chosen);
    *product_z = row.z;
    *product_x = row.x;
    *phase = row.phase as u8;
    Ok(())
}
