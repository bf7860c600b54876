// The public calls that rewrite a lent record in place: their refusal, and gate and cz.
#![tactic(auto)]

pub mod complement;
pub mod measure;

ghost use Rattle.buffers.specs.internal.Numbers.{number_of};
ghost use Rattle.std.specs.Prelude.{false, true, ◌≡◌, ℕ, ◌<◌, ◌≤◌, get_or, length};
ghost use Rattle.std.specs.Option.{IfSome, is_none};
ghost use Rattle.buffers.specs.Calls.{Call};
ghost use Rattle.buffers.specs.Refusals.{first_fitting, reaching};
ghost use Rattle.operations_gates.specs.internal.Suspects.{Marked};
ghost use Rattle.operations.specs.Steps.{cz_on, gate_with};
ghost use Rattle.record_impl.specs.internal.Looks.{Looked};
ghost use Rattle.operations.specs.Used.{used_lines, used_record};
ghost use Rattle.calls.specs.InPlace.{used_call};
ghost use Rattle.calls.specs.internal.InPlace.{used_in_place};
ghost use Rattle.call_gates.specs.internal.Knowing.{Found, Known};

use buffers::refusals::Refusal;
use operations_checks::used_number;
use operations_gates::suspecting::{look, suspects};
use operations_gates::{cz_record, gate_record};
use words::bit_at;

// The first line of a record that holds, which need not be looked for where none is known to hold;
// `over`: whether a code is 24 or more, where the caller has looked; `six`: line 6 holds of a further argument.
fn known_number(
    n: u64,
    neighbours: &[u64],
    codes: &[u8],
    used: u64,
    over: Option<bool>,
    six: bool,
    known: bool,
) -> Result<(), Refusal>
    requires known { Known known (used_record n neighbours.now codes.now used) }
    requires looked { Looked over codes.now }
    ensures { number_of result ≡ first_fitting (used_lines (used_record n neighbours.now codes.now used)
        false false six) }
{
    if known {
        return if six { Err(Refusal::Value) } else { Ok(()) };
    }
    used_number(n, neighbours, codes, used, 0, false, over, six)
}

// The same, where the codes have not been looked at.
pub fn known_refusal(
    n: u64,
    neighbours: &[u64],
    codes: &[u8],
    used: u64,
    six: bool,
    known: bool,
) -> Result<(), Refusal>
    requires { Known known (used_record n neighbours.now codes.now used) }
    ensures { number_of result ≡ first_fitting (used_lines (used_record n neighbours.now codes.now used)
        false false six) }
{
    known_number(n, neighbours, codes, used, None, six, known)
}

// The first line of a record that holds, then 8 where `eight` does, then 16 where `sixteen` does;
// `over`: whether a code is 24 or more, where the caller has looked; `six`: line 6 holds of a further argument;
// `known`: no line of the record alone holds.
fn in_place_number(
    n: u64,
    neighbours: &[u64],
    codes: &[u8],
    used: u64,
    over: Option<bool>,
    six: bool,
    eight: bool,
    sixteen: bool,
    known: bool,
) -> Result<(), Refusal>
    requires known { Known known (used_record n neighbours.now codes.now used) }
    requires looked { Looked over codes.now }
    ensures { number_of result ≡ first_fitting (used_in_place (used_record n neighbours.now codes.now used)
        six eight sixteen) }
{
    known_number(n, neighbours, codes, used, over, six, known)?;
    if eight {
        return Err(Refusal::Qubit);
    }
    if sixteen { Err(Refusal::Used) } else { Ok(()) }
}

// The same, where the codes have not been looked at.
pub fn in_place_refusal(
    n: u64,
    neighbours: &[u64],
    codes: &[u8],
    used: u64,
    six: bool,
    eight: bool,
    sixteen: bool,
    known: bool,
) -> Result<(), Refusal>
    requires { Known known (used_record n neighbours.now codes.now used) }
    ensures { number_of result ≡ first_fitting (used_in_place (used_record n neighbours.now codes.now used)
        six eight sixteen) }
{
    in_place_number(n, neighbours, codes, used, None, six, eight, sixteen, known)
}

// One look at all codes, for line 6 and for what follows; it is not made where no line of the record holds, and no
// vertex is told then.
fn first_look(codes: &[u8], known: bool) -> Option<u64>
    requires { known ≡ true → reaching 24 codes.now ≡ false }
    ensures over_value { is_none result ≡ reaching 24 codes.now }
    ensures found { IfSome result (λ word. Found known codes.now word) }
{
    if known {
        return Some(0);
    }
    look(codes)
}

// The vertices with a code that is odd, or 8 or more: as the first look told, or by a look where none was made.
fn found(codes: &[u8], known: bool, seen: Option<u64>) -> u64
    requires codes_len_bound { (length codes.now ≤ 64) × ((q : ℕ) → get_or codes.now q 0 < 24) }
    requires found { IfSome seen (λ word. Found known codes.now word) }
    ensures { Marked codes.now result }
{
    match seen {
        Some(word) if !known => word,
        _ => suspects(codes),
    }
}

// A code applied after the code held at a qubit, and the reduced record. `known`: no line of the record alone
// holds.
pub fn gate_known(
    n: u64,
    neighbours: &mut [u64],
    codes: &mut [u8],
    used: u64,
    qubit: u64,
    code: u8,
    known: bool,
) -> Result<(), Refusal>
    requires { Known known (used_record n neighbours.old codes.old used) }
    ensures { Call (used_call (used_record n neighbours.old codes.old used) (gate_with qubit
        code) neighbours.new codes.new) (number_of result) }
{
    let sixteen = bit_at(used, qubit);
    let seen = first_look(codes, known);
    in_place_number(
        n,
        neighbours,
        codes,
        used,
        Some(seen.is_none()),
        24 <= code,
        n <= qubit,
        sixteen,
        known,
    )?;
    let touched = found(codes, known, seen);
    gate_record(neighbours, codes, qubit as usize, code, touched);
    Ok(())
}

// CZ on two qubits, and the reduced record.
pub fn cz_known(
    n: u64,
    neighbours: &mut [u64],
    codes: &mut [u8],
    used: u64,
    a: u64,
    b: u64,
    known: bool,
) -> Result<(), Refusal>
    requires { Known known (used_record n neighbours.old codes.old used) }
    ensures { Call (used_call (used_record n neighbours.old codes.old used) (cz_on a b)
        neighbours.new codes.new) (number_of result) }
{
    let eight = (n <= a) | ((n <= b) | (a == b));
    let sixteen = bit_at(used, a) | bit_at(used, b);
    let seen = first_look(codes, known);
    in_place_number(
        n,
        neighbours,
        codes,
        used,
        Some(seen.is_none()),
        false,
        eight,
        sixteen,
        known,
    )?;
    let touched = found(codes, known, seen);
    cz_record(neighbours, codes, a as usize, b as usize, touched);
    Ok(())
}

// The same where nothing is known of the record.
pub fn gate(
    n: u64,
    neighbours: &mut [u64],
    codes: &mut [u8],
    used: u64,
    qubit: u64,
    code: u8,
) -> Result<(), Refusal>
    ensures { Call (used_call (used_record n neighbours.old codes.old used) (gate_with qubit
        code) neighbours.new codes.new) (number_of result) }
{
    gate_known(n, neighbours, codes, used, qubit, code, false)
}

pub fn cz(
    n: u64,
    neighbours: &mut [u64],
    codes: &mut [u8],
    used: u64,
    a: u64,
    b: u64,
) -> Result<(), Refusal>
    ensures { Call (used_call (used_record n neighbours.old codes.old used) (cz_on a b)
        neighbours.new codes.new) (number_of result) }
{
    cz_known(n, neighbours, codes, used, a, b, false)
}
