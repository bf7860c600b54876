// The calls on a record as a text: what is said of each.
ghost use Rattle.claims.specs.RecordTexts.{ReadRecordSays, WriteRecordSays};
ghost use Rattle.operations.specs.Used.{used_record};

use crate::texts::{sukhlent_read_record, sukhlent_write_record};

pub fn write_record_says(
    n: u64,
    neighbours: &[u64],
    codes: &[u8],
    used: u64,
    text: &mut [u8],
    length: &mut u64,
) -> u8
    ensures { WriteRecordSays
        (used_record n neighbours.now codes.now used)
        text.old length.old text.new length.new result }
{
    sukhlent_write_record(n, neighbours, codes, used, text, length)
}

pub fn read_record_says(
    text: &[u8],
    n: &mut u64,
    neighbours: &mut [u64],
    codes: &mut [u8],
    used: &mut u64,
) -> u8
    ensures { ReadRecordSays text.now
        n.old neighbours.old codes.old used.old
        n.new neighbours.new codes.new used.new result }
{
    sukhlent_read_record(text, n, neighbours, codes, used)
}
