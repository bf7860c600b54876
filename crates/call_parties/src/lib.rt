// The public calls of a party on a shared record: gate, cz, measurement, complementation. Each works on a copy in which
// the other party's vertices stand alone in +Z, and puts the party's own vertices back.
#![tactic(auto)]

pub mod source_calls;
pub mod stores;

ghost use Rattle.buffers.specs.internal.Numbers.{number_of};
ghost use Rattle.std.specs.Prelude.{ℕ};
ghost use Rattle.buffers.specs.Calls.{Call};
ghost use Rattle.parties_impl.specs.internal.BeforeEight.{Admitted};
ghost use Rattle.parties.specs.internal.Apart.{Apart, PartyOp};
ghost use Rattle.operations.specs.Steps.{Operation, complement_of, cz_on, gate_with, measurement_of};
ghost use Rattle.calls.specs.InPlace.{used_call, used_measure_call};
ghost use Rattle.calls.specs.Parties.{party_call, party_measure_call};
ghost use Rattle.calls.specs.Sources.{observe_call, party_observe_call};
ghost use Rattle.operations.specs.Used.{UsedUnrefused, used_record};

use buffers::refusals::Refusal;
use call_gates::complement::complement_known;
use call_gates::measure::measure_known;
use call_gates::{cz_known, gate_known};
use parties_impl::records::{outside, party_refusal, put_party, put_used, take_party};

// A step of a call that is admitted, on a copy of the party's vertices, which are put back where it accepts.
fn within<F: FnOnce(&mut [u64], &mut [u8], u64) -> Result<(), Refusal>>(
    n: u64,
    word: u64,
    party: u8,
    neighbours: &mut [u64],
    codes: &mut [u8],
    used: u64,
    step: F,
) -> Result<(), Refusal>
    requires apart { Apart word (used_record n neighbours.old codes.old used) }
    requires callable { (w : _) (b : _) (own : _) → UsedUnrefused (used_record n w.now b.now own)
        → F.pre step w b own }
    ensures { (o : Operation) → PartyOp o → Admitted word party (used_record n neighbours.old codes.old used) o
        → ((w : _) (b : _) (own : _) (r : _) (w' : _) (b' : _) → F.post step w b own r w' b'
        → Call (used_call (used_record n w.now b.now own) o w'.now b'.now) (number_of r))
        → Call (party_call word party (used_record n neighbours.old codes.old used) o neighbours.new codes.new)
        (number_of result) }
{
    let mut words = [0u64; 64];
    let mut bytes = [0u8; 64];
    let own_used = take_party(word, party, neighbours, codes, used, &mut words, &mut bytes);
    step(&mut words, &mut bytes, own_used)?;
    put_party(word, party, &words, &bytes, neighbours, codes);
    Ok(())
}

// A code applied after the code held at a qubit of the party, and the party's vertices reduced.
pub fn gate(
    n: u64,
    word: u64,
    party: u8,
    neighbours: &mut [u64],
    codes: &mut [u8],
    used: u64,
    qubit: u64,
    code: u8,
) -> Result<(), Refusal>
    ensures { Call (party_call word party (used_record n neighbours.old codes.old used)
        (gate_with qubit code) neighbours.new codes.new) (number_of result) }
{
    let other = outside(n, word, party, qubit);
    party_refusal(n, word, party, neighbours, codes, used, 24 <= code, other)?;
    within(
        n,
        word,
        party,
        neighbours,
        codes,
        used,
        |words, bytes, own| { gate_known(n, words, bytes, own, qubit, code, true) },
    )
}

// CZ on two qubits of the party, and the party's vertices reduced.
pub fn cz(
    n: u64,
    word: u64,
    party: u8,
    neighbours: &mut [u64],
    codes: &mut [u8],
    used: u64,
    a: u64,
    b: u64,
) -> Result<(), Refusal>
    ensures { Call (party_call word party (used_record n neighbours.old codes.old used)
        (cz_on a b) neighbours.new codes.new) (number_of result) }
{
    let other = outside(n, word, party, a) | outside(n, word, party, b);
    party_refusal(n, word, party, neighbours, codes, used, false, other)?;
    within(
        n,
        word,
        party,
        neighbours,
        codes,
        used,
        |words, bytes, own| { cz_known(n, words, bytes, own, a, b, true) },
    )
}

// Local complementation at a vertex of the party; the record is not reduced.
pub fn complement(
    n: u64,
    word: u64,
    party: u8,
    neighbours: &mut [u64],
    codes: &mut [u8],
    used: u64,
    a: u64,
) -> Result<(), Refusal>
    ensures { Call (party_call word party (used_record n neighbours.old codes.old used)
        (complement_of a) neighbours.new codes.new) (number_of result) }
{
    let other = outside(n, word, party, a);
    party_refusal(n, word, party, neighbours, codes, used, false, other)?;
    within(
        n,
        word,
        party,
        neighbours,
        codes,
        used,
        |words, bytes, own| { complement_known(n, words, bytes, own, a, true) },
    )
}

// A measurement of a call that is admitted, on a copy of the party's vertices, which are put back where it accepts,
// with the qubits that it marks as used.
fn measured_within<
    F: FnOnce(&mut [u64], &mut [u8], &mut u64, &mut u8, &mut u8) -> Result<(), Refusal>,
>(
    n: u64,
    word: u64,
    party: u8,
    neighbours: &mut [u64],
    codes: &mut [u8],
    used: &mut u64,
    answer: &mut u8,
    determined: &mut u8,
    step: F,
) -> Result<(), Refusal>
    requires apart { Apart word (used_record n neighbours.old codes.old used.old) }
    requires callable { (w : _) (b : _) (own : _) (x : _) (y : _)
        → UsedUnrefused (used_record n w.now b.now own.now) → F.pre step w b own x y }
    ensures measured { (pauli : ℕ) (qubit : ℕ) (bit : ℕ)
        → Admitted word party (used_record n neighbours.old codes.old used.old) (measurement_of pauli qubit bit)
        → ((w : _) (b : _) (own : _) (x : _) (y : _) (r : _) (w' : _) (b' : _) (own' : _) (x' : _) (y' : _)
        → F.post step w b own x y r w' b' own' x' y'
        → Call (used_measure_call (used_record n w.now b.now own.now) pauli qubit bit x.now y.now
        w'.now b'.now own'.now x'.now y'.now) (number_of r))
        → Call (party_measure_call word party (used_record n neighbours.old codes.old used.old) pauli qubit bit
        answer.old determined.old neighbours.new codes.new used.new answer.new determined.new) (number_of result) }
    ensures observed { (pauli : ℕ) (qubit : ℕ) (bit : ℕ)
        → Admitted word party (used_record n neighbours.old codes.old used.old) (measurement_of pauli qubit bit)
        → ((w : _) (b : _) (own : _) (x : _) (y : _) (r : _) (w' : _) (b' : _) (own' : _) (x' : _) (y' : _)
        → F.post step w b own x y r w' b' own' x' y'
        → Call (observe_call (used_record n w.now b.now own.now) pauli qubit bit x.now y.now
        w'.now b'.now own'.now x'.now y'.now) (number_of r))
        → Call (party_observe_call word party (used_record n neighbours.old codes.old used.old) pauli qubit bit
        answer.old determined.old neighbours.new codes.new used.new answer.new determined.new) (number_of result) }
{
    let mut words = [0u64; 64];
    let mut bytes = [0u8; 64];
    let mut own_used = take_party(
        word, party, neighbours, codes, *used, &mut words, &mut bytes,
    );
    step(&mut words, &mut bytes, &mut own_used, answer, determined)?;
    put_party(word, party, &words, &bytes, neighbours, codes);
    *used = put_used(word, party, own_used, *used);
    Ok(())
}

// A Pauli measured at a qubit of the party: the outcome, whether it was determined, the party's vertices reduced, and
// the qubit marked as used.
pub fn measure(
    n: u64,
    word: u64,
    party: u8,
    neighbours: &mut [u64],
    codes: &mut [u8],
    used: &mut u64,
    pauli: u8,
    qubit: u64,
    outcome: u8,
    answer: &mut u8,
    determined: &mut u8,
) -> Result<(), Refusal>
    ensures { Call (party_measure_call word party (used_record n neighbours.old codes.old
        used.old) pauli qubit outcome answer.old determined.old
        neighbours.new codes.new used.new answer.new
        determined.new) (number_of result) }
{
    let other = outside(n, word, party, qubit);
    let six = (2 <= outcome) | ((pauli == 0) | (4 <= pauli));
    let whole = *used;
    party_refusal(n, word, party, neighbours, codes, whole, six, other)?;
    measured_within(
        n,
        word,
        party,
        neighbours,
        codes,
        used,
        answer,
        determined,
        |words, bytes, own, answer, determined| {
            measure_known(
                n, words, bytes, own, pauli, qubit, outcome, answer, determined, true,
            )
        },
    )
}
