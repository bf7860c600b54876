// The measurement of a Pauli row of any weight, as C sees it.
ghost use Rattle.calls.specs.Parities.{measure_row_call};
ghost use Rattle.buffers.specs.Calls.{Call};
ghost use Rattle.operations.specs.Used.{used_record};

use buffers::refusals::number_of;

// A Pauli row measured, with a bit by lot: the outcome, whether it was determined, and the reduced record.
#[unsafe(no_mangle)]
pub extern "C" fn sukhlent_measure_row(
    n: u64,
    neighbours: &mut [u64],
    codes: &mut [u8],
    used: u64,
    z: u64,
    x: u64,
    bit: u8,
    answer: &mut u8,
    determined: &mut u8,
) -> u8
    ensures { Call (measure_row_call
        (used_record n neighbours.old codes.old used)
        z x bit answer.old determined.old
        neighbours.new codes.new answer.new determined.new) result }
{
    number_of(call_parity::measure_row(n, neighbours, codes, used, z, x, bit, answer, determined))
}
