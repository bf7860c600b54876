// The generators of a record, changed by the measurement of a row: the first that does not commute with it goes into
// the others that do not, and the row takes its place.
ghost use Rattle.std.specs.Prelude.{false, ◌≡◌, ℕ, ◌<◌, ◌^◌, get_or, length};
ghost use Rattle.operations.specs.internal.InPlace.{Unrefused, record_in};
ghost use Rattle.parity.specs.RowMeasurement.{row_value};
ghost use Rattle.parity.specs.internal.InPlace.{RowLeft};
ghost use Rattle.parity.specs.internal.Lists.{Changed, list_in};
ghost use Rattle.pauli.specs.Pauli.{anticommute, i⁰, mul, row, signed_row};
ghost use Rattle.pauli.specs.internal.Rows.{generator_of};
ghost use Rattle.record.specs.Lent.{held_rows};
ghost use Rattle.stabilizer.specs.Groups.{chosen};
ghost use Rattle.stabilizer.specs.Lists.{rows};
ghost use Rattle.words.specs.Search.{first};

use buffers::sign_digit;
use pauli::{Generator, clashes, letters_minus};
use record_impl::expansion::expand_into;
use record_reduction::reduce_list;

// The first generator that does not commute with the row; n where all do. A number and no `Option`: its caller knows
// that there is one.
fn first_against(zs: &[u64], xs: &[u64], z: u64, x: u64) -> usize
    requires { length xs.now ≡ length zs.now }
    ensures { result ≡ first (length zs.now) (λ i. anticommute 64
        (row i⁰ (get_or zs.now i 0) (get_or xs.now i 0)) (row i⁰ z x)) }
{
    for j in 0..zs.len() {
        if clashes(zs[j], xs[j], z, x) {
            return j;
        }
    }
    zs.len()
}

// A generator, times another that commutes with it where it does not commute with the row.
fn cleared(own: Generator, by: Generator, z: u64, x: u64) -> Generator
    requires { anticommute 64 (generator_of own) (generator_of by) ≡ false }
    ensures { generator_of result ≡ mul 64 (generator_of own)
        (chosen (anticommute 64 (generator_of own) (signed_row false z x)) (generator_of by)) }
{
    if !clashes(own.z, own.x, z, x) {
        return own;
    }
    let minus = letters_minus(own.z, own.x, by.z, by.x);
    Generator {
        minus: (own.minus != by.minus) != minus,
        z: own.z ^ by.z,
        x: own.x ^ by.x,
    }
}

// Generator g goes into the others that do not commute with the row, which takes its place, with its sign.
fn change(signs: &mut [u8], zs: &mut [u64], xs: &mut [u64], z: u64, x: u64, minus: bool, g: usize)
    requires zs_len { (length zs.old ≡ length signs.old) × (length xs.old ≡ length signs.old)
        × (g < length signs.old) }
    requires by_index { (i : ℕ) → i < length signs.old → anticommute 64 (rows (list_in signs.old zs.old xs.old) i)
        (rows (list_in signs.old zs.old xs.old) g) ≡ false }
    ensures { Changed z x minus g (list_in signs.old zs.old xs.old)
        (list_in signs.new zs.new xs.new) }
{
    let by = Generator {
        minus: signs[g] % 2 == 1,
        z: zs[g],
        x: xs[g],
    };
    for j in 0..signs.len() {
        let own = Generator {
            minus: signs[j] % 2 == 1,
            z: zs[j],
            x: xs[j],
        };
        let next = cleared(own, by, z, x);
        signs[j] = sign_digit(next.minus);
        zs[j] = next.z;
        xs[j] = next.x;
    }
    signs[g] = sign_digit(minus);
    zs[g] = z;
    xs[g] = x;
}

// A row measured that is not determined; three buffers with as many places are room for the generators.
fn measure_in(
    neighbours: &mut [u64],
    codes: &mut [u8],
    z: u64,
    x: u64,
    bit: bool,
    signs: &mut [u8],
    zs: &mut [u64],
    xs: &mut [u64],
)
    requires unrefused { Unrefused (record_in neighbours.old codes.old) }
    requires z_bound { (z < 2 ^ (length neighbours.old)) × (x < 2 ^ (length neighbours.old)) }
    requires x_value { row_value (length neighbours.old) (held_rows (record_in neighbours.old codes.old)) z x ≡ 2 }
    requires signs_len { (length signs.old ≡ length neighbours.old) × (length zs.old ≡ length neighbours.old)
        × (length xs.old ≡ length neighbours.old) }
    ensures { RowLeft neighbours.old codes.old z x bit
        neighbours.new codes.new }
{
    let n = neighbours.len();
    expand_into(n, neighbours, codes, signs, zs, xs);
    let g = first_against(zs, xs, z, x);
    change(signs, zs, xs, z, x, bit, g);
    reduce_list(n, signs, zs, xs, neighbours, codes);
}

// A row measured that is not determined: the reduced record of the group afterwards, with the bit for the row's sign.
pub fn measure_open(neighbours: &mut [u64], codes: &mut [u8], z: u64, x: u64, bit: bool)
    requires unrefused { Unrefused (record_in neighbours.old codes.old) }
    requires z_bound { (z < 2 ^ (length neighbours.old)) × (x < 2 ^ (length neighbours.old)) }
    requires x_value { row_value (length neighbours.old) (held_rows (record_in neighbours.old codes.old)) z x ≡ 2 }
    ensures { RowLeft neighbours.old codes.old z x bit
        neighbours.new codes.new }
{
    let n = neighbours.len();
    let mut signs = [0u8; 64];
    let mut zs = [0u64; 64];
    let mut xs = [0u64; 64];
    measure_in(
        neighbours,
        codes,
        z,
        x,
        bit,
        &mut signs[..n],
        &mut zs[..n],
        &mut xs[..n],
    );
}
