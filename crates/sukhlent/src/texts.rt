// The calls on a record as a text, as C sees them.
ghost use Rattle.calls.specs.RecordTexts.{read_record_call, write_record_call};
ghost use Rattle.buffers.specs.Calls.{Call};
ghost use Rattle.operations.specs.Used.{used_record};

use buffers::refusals::number_of;

// The text of a record, and how many bytes it has.
#[unsafe(no_mangle)]
pub extern "C" fn sukhlent_write_record(
    n: u64,
    neighbours: &[u64],
    codes: &[u8],
    used: u64,
    text: &mut [u8],
    length: &mut u64,
) -> u8
    ensures { Call (write_record_call
        (used_record n neighbours.now codes.now used)
        text.old length.old text.new length.new) result }
{
    number_of(call_texts::write_record(n, neighbours, codes, used, text, length))
}

// The record of a text.
#[unsafe(no_mangle)]
pub extern "C" fn sukhlent_read_record(
    text: &[u8],
    n: &mut u64,
    neighbours: &mut [u64],
    codes: &mut [u8],
    used: &mut u64,
) -> u8
    ensures { Call (read_record_call text.now
        n.old neighbours.old codes.old used.old
        n.new neighbours.new codes.new used.new) result }
{
    number_of(call_texts::read_record(text, n, neighbours, codes, used))
}
