// The lines of the refusals that speak of a record with used qubits.
#![tactic(auto)]

ghost use Rattle.buffers.specs.internal.Numbers.{number_of};
ghost use Rattle.std.specs.Prelude.{not, ◌||◌, ◌≡◌, ◌<◌, ◌≤◌, ◌^◌, eqb, leb, length};
ghost use Rattle.buffers.specs.Refusals.{first_fitting};
ghost use Rattle.operations.specs.internal.InPlace.{record_in};
ghost use Rattle.record_impl.specs.internal.Looks.{Looked};
ghost use Rattle.operations.specs.Used.{used_code, used_lines, used_record, used_wrong};

use buffers::refusals::{Refusal, refuses_shape};
use record_impl::checks::record_number;
use words::{flip, smallest, stray};

// Line 7 of a used vertex: it has a neighbour, or its code is none of 0, 2, 4, 6, 8 and 10.
fn wrong_vertex(word: u64, code: u8) -> bool
    ensures { result ≡ (not (eqb word 0) || not (used_code code)) }
{
    (word != 0) | !((code < 12) & (code % 2 != 1))
}

// Line 7: whether some used vertex is wrong.
fn used_wrong(neighbours: &[u64], codes: &[u8], used: u64) -> bool
    requires neighbours_len_bound { (length neighbours.now ≤ 64) × (length codes.now ≡ length neighbours.now) }
    requires used_bound { used < 2 ^ (length neighbours.now) }
    ensures { result ≡ used_wrong (record {
      held = record_in neighbours.now codes.now;
      used = used;
    }) }
{
    let mut rest = used;
    while rest != 0 {
        let q = smallest(rest);
        if wrong_vertex(neighbours[q], codes[q]) {
            return true;
        }
        rest = flip(rest, q);
    }
    false
}

// The first line of a record that holds; `Ok` where none does. `word`: a further word that has no bit at or above n;
// `others`: a further buffer of the call has a wrong length; `over`: whether a code is 24 or more, where the caller has
// looked; `six`: line 6 holds of a further argument.
pub fn used_number(
    n: u64,
    neighbours: &[u64],
    codes: &[u8],
    used: u64,
    word: u64,
    others: bool,
    over: Option<bool>,
    six: bool,
) -> Result<(), Refusal>
    requires { Looked over codes.now }
    ensures { number_of result ≡ first_fitting (used_lines (used_record n neighbours.now codes.now used)
        others (leb (2 ^ n) word) six) }
{
    let record = record_number(n, neighbours, codes, others, over, six);
    if refuses_shape(record) {
        return record;
    }
    let count = n as usize;
    if stray(used, count) | stray(word, count) {
        return Err(Refusal::Stray);
    }
    record?;
    if used_wrong(neighbours, codes, used) {
        Err(Refusal::Graph)
    } else {
        Ok(())
    }
}

// The same, where the codes have not been looked at.
pub fn used_refusal(
    n: u64,
    neighbours: &[u64],
    codes: &[u8],
    used: u64,
    word: u64,
    others: bool,
    six: bool,
) -> Result<(), Refusal>
    ensures { number_of result ≡ first_fitting (used_lines (used_record n neighbours.now codes.now used)
        others (leb (2 ^ n) word) six) }
{
    used_number(n, neighbours, codes, used, word, others, None, six)
}
