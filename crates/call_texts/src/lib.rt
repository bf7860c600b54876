// The public calls that write a record as a text and read it.
#![tactic(auto)]

ghost use Rattle.buffers.specs.internal.Numbers.{number_of};
ghost use Rattle.std.specs.Prelude.{false, ◌≡◌, length, take};
ghost use Rattle.buffers.specs.Calls.{Call};
ghost use Rattle.buffers.specs.Refusals.{first_fitting};
ghost use Rattle.calls.specs.RecordTexts.{read_record_call, write_record_call};
ghost use Rattle.operations.specs.Used.{used_lines, used_record};

use buffers::refusals::Refusal;
use buffers::{bad_count, other_than};
use operations_checks::used_refusal;
use store_impl::copies::take_record;
use text_impl::printing::print_record;
use text_records::reading::read_text;

// The text of a record, and how many bytes it has; the places past them keep their values.
pub fn write_record(
    n: u64,
    neighbours: &[u64],
    codes: &[u8],
    used: u64,
    text: &mut [u8],
    size: &mut u64,
) -> Result<(), Refusal>
    ensures { Call (write_record_call (used_record n neighbours.now codes.now used)
        text.old size.old text.new size.new) (number_of result) }
{
    let others = other_than(text.len(), 1627);
    used_refusal(n, neighbours, codes, used, 0, others, false)?;
    let end = print_record(n as usize, neighbours, codes, used, 0, text);
    *size = end as u64;
    Ok(())
}

// The first of lines 2 to 7 that holds of the record in the first n of 64 places; `Ok` where none does. `others`: a
// buffer of the call has a wrong length.
fn held_refusal(
    n: usize,
    neighbours: &[u64],
    codes: &[u8],
    used: u64,
    others: bool,
) -> Result<(), Refusal>
    requires { (length neighbours.now ≡ 64) × (length codes.now ≡ 64) }
    ensures { number_of result ≡ first_fitting (used_lines (used_record n (take n neighbours.now)
        (take n codes.now) used) others false false) }
{
    let count = n as u64;
    if bad_count(count) {
        return Err(Refusal::Count);
    }
    used_refusal(count, &neighbours[..n], &codes[..n], used, 0, others, false)
}

// The record of a text, into buffers of 64 places; those from n on keep their values.
pub fn read_record(
    text: &[u8],
    n: &mut u64,
    neighbours: &mut [u64],
    codes: &mut [u8],
    used: &mut u64,
) -> Result<(), Refusal>
    ensures { Call (read_record_call text.now
        n.old neighbours.old codes.old used.old
        n.new neighbours.new codes.new used.new) (number_of result) }
{
    let Some(read) = read_text(text) else {
        return Err(Refusal::Form);
    };
    let others = other_than(neighbours.len(), 64) | other_than(codes.len(), 64);
    held_refusal(read.count, &read.neighbours, &read.codes, read.used, others)?;
    take_record(
        0,
        read.count,
        &read.neighbours,
        &read.codes,
        neighbours,
        codes,
    );
    *n = read.count as u64;
    *used = read.used;
    Ok(())
}
