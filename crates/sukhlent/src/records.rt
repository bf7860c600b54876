// The calls on records, as C sees them.
ghost use Rattle.calls.specs.Cuts.{cut_call};
ghost use Rattle.calls.specs.Expansions.{expand_call};
ghost use Rattle.calls.specs.InPlace.{used_call, used_measure_call};
ghost use Rattle.calls.specs.Images.{image_call};
ghost use Rattle.buffers.specs.Calls.{Call};
ghost use Rattle.operations.specs.Steps.{complement_of, cz_on, gate_with};
ghost use Rattle.record.specs.Lent.{lent_record};
ghost use Rattle.operations.specs.Used.{used_record};

use buffers::refusals::number_of;

// The generators of a record, in order.
#[unsafe(no_mangle)]
pub extern "C" fn sukhlent_expand(
    n: u64,
    neighbours: &[u64],
    codes: &[u8],
    used: u64,
    signs: &mut [u8],
    z: &mut [u64],
    x: &mut [u64],
) -> u8
    ensures { Call (expand_call
        (used_record n neighbours.now codes.now used)
        signs.old z.old x.old
        signs.new z.new x.new) result }
{
    number_of(call_readings::expansions::expand(n, neighbours, codes, used, signs, z, x))
}

// A code applied after the code held at a qubit, and the reduced record.
#[unsafe(no_mangle)]
pub extern "C" fn sukhlent_gate(
    n: u64,
    neighbours: &mut [u64],
    codes: &mut [u8],
    used: u64,
    qubit: u64,
    code: u8,
) -> u8
    ensures { Call (used_call
        (used_record n neighbours.old codes.old used)
        (gate_with qubit code) neighbours.new codes.new) result }
{
    number_of(call_gates::gate(n, neighbours, codes, used, qubit, code))
}

// CZ on two qubits, and the reduced record.
#[unsafe(no_mangle)]
pub extern "C" fn sukhlent_cz(
    n: u64,
    neighbours: &mut [u64],
    codes: &mut [u8],
    used: u64,
    a: u64,
    b: u64,
) -> u8
    ensures { Call (used_call
        (used_record n neighbours.old codes.old used)
        (cz_on a b) neighbours.new codes.new) result }
{
    number_of(call_gates::cz(n, neighbours, codes, used, a, b))
}

// A Pauli measured at a qubit: the outcome, whether it was determined, and the reduced record.
#[unsafe(no_mangle)]
pub extern "C" fn sukhlent_measure(
    n: u64,
    neighbours: &mut [u64],
    codes: &mut [u8],
    used: &mut u64,
    pauli: u8,
    qubit: u64,
    outcome: u8,
    answer: &mut u8,
    determined: &mut u8,
) -> u8
    ensures { Call (used_measure_call
        (used_record n neighbours.old codes.old used.old)
        pauli qubit outcome answer.old determined.old
        neighbours.new codes.new used.new answer.new
        determined.new) result }
{
    number_of(call_gates::measure::measure(
        n, neighbours, codes, used, pauli, qubit, outcome, answer, determined,
    ))
}

// Local complementation at a vertex; the record is not reduced.
#[unsafe(no_mangle)]
pub extern "C" fn sukhlent_complement(
    n: u64,
    neighbours: &mut [u64],
    codes: &mut [u8],
    used: u64,
    a: u64,
) -> u8
    ensures { Call (used_call
        (used_record n neighbours.old codes.old used)
        (complement_of a) neighbours.new codes.new) result }
{
    number_of(call_gates::complement::complement(n, neighbours, codes, used, a))
}

// The image graph, its signs, and the list of the vertices complemented.
#[unsafe(no_mangle)]
pub extern "C" fn sukhlent_image(
    n: u64,
    neighbours: &[u64],
    codes: &[u8],
    image: &mut [u64],
    signs: &mut [u8],
    list: &mut [u8],
    count: &mut u64,
) -> u8
    ensures { Call (image_call
        (lent_record n neighbours.now codes.now)
        image.old signs.old list.old count.old
        image.new signs.new list.new count.new) result }
{
    number_of(call_readings::images::image(n, neighbours, codes, image, signs, list, count))
}

// The rank of the edges between the marked side of a record's vertices and the other.
#[unsafe(no_mangle)]
pub extern "C" fn sukhlent_cut(
    n: u64,
    neighbours: &[u64],
    codes: &[u8],
    used: u64,
    side: u64,
    rank: &mut u64,
) -> u8
    ensures { Call (cut_call
        (used_record n neighbours.now codes.now used) side
        rank.old rank.new) result }
{
    number_of(call_readings::cuts::cut(n, neighbours, codes, used, side, rank))
}
