// Generator lists: the lines of the refusals that are read off the lent buffers.
ghost use Rattle.std.specs.Prelude.{false, ◌≡◌, ◌<◌, ◌≤◌, ◌^◌, get_or, length};
ghost use Rattle.buffers.specs.Refusals.{first_fitting, reaching};
ghost use Rattle.buffers.specs.internal.Numbers.{number_of};
ghost use Rattle.pauli.specs.Pauli.{anticommute, i⁰, row};
ghost use Rattle.words.specs.Search.{some};
ghost use Rattle.stabilizer.specs.Lists.{clashing, early_lines, form_lines, list_lengths};

use buffers::refusals::Refusal;
use buffers::{bad_count, reaches, strays};
use pauli::clashes;

// Line 4: one of the three buffers does not have n places.
fn list_lengths(n: usize, signs: &[u8], z: &[u64], x: &[u64]) -> bool
    ensures { result ≡ list_lengths (record {
      n = n;
      signs = signs.now;
      z = z.now;
      x = x.now;
    }) }
{
    (signs.len() != n) | ((z.len() != n) | (x.len() != n))
}

// Whether generator i fails to commute with one before it.
fn clashes_before(z: &[u64], x: &[u64], i: usize) -> bool
    requires { (i < length z.now) × (i < length x.now) }
    ensures { result ≡ some i (λ j. anticommute 64 (row i⁰ (get_or z.now i 0) (get_or x.now i 0))
        (row i⁰ (get_or z.now j 0) (get_or x.now j 0))) }
{
    for j in 0..i {
        if clashes(z[i], x[i], z[j], x[j]) {
            return true;
        }
    }
    false
}

// Line 9: two generators do not commute. No word has a bit at or above n.
fn some_clash(n: usize, z: &[u64], x: &[u64]) -> bool
    requires n_bound { (n ≤ 64) × (length z.now ≡ n) × (length x.now ≡ n) }
    requires z_value { (reaching (2 ^ n) z.now ≡ false) × (reaching (2 ^ n) x.now ≡ false) }
    ensures { result ≡ clashing n (λ j. row i⁰ (get_or z.now j 0) (get_or x.now j 0)) }
{
    for i in 0..n {
        if clashes_before(z, x, i) {
            return true;
        }
    }
    false
}

// The first of lines 2, 4, 5 and 6 of a list that holds; `Ok` where none does. `others`: a further buffer of the call has
// a wrong length.
pub fn form_refusal(n: u64, signs: &[u8], z: &[u64], x: &[u64], others: bool) -> Result<(), Refusal>
    ensures { number_of result ≡ first_fitting (form_lines (record {
      n = n;
      signs = signs.now;
      z = z.now;
      x = x.now;
    }) others) }
{
    if bad_count(n) {
        return Err(Refusal::Count);
    }
    let count = n as usize;
    if list_lengths(count, signs, z, x) | others {
        return Err(Refusal::Length);
    }
    if strays(z, count) | strays(x, count) {
        return Err(Refusal::Stray);
    }
    if reaches(signs, 2) {
        return Err(Refusal::Value);
    }
    Ok(())
}

// The first line of a list that holds, of those that need no elimination; `Ok` where none does.
pub fn early_refusal(
    n: u64,
    signs: &[u8],
    z: &[u64],
    x: &[u64],
    others: bool,
) -> Result<(), Refusal>
    ensures { number_of result ≡ first_fitting (early_lines (record {
      n = n;
      signs = signs.now;
      z = z.now;
      x = x.now;
    }) others) }
{
    form_refusal(n, signs, z, x, others)?;
    if some_clash(n as usize, z, x) {
        return Err(Refusal::Anticommute);
    }
    Ok(())
}
