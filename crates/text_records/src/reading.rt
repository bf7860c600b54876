// The text of a record, line by line.
ghost use Rattle.text_records.specs.internal.Reads.{TextTold};

use crate::lines::read_line;
use words::put_bit;

// The names above the lines.
const NAMES: [u8; 27] = *b"qubit code neighbours used\n";

// How many lines a text has, and what the first 64 say.
#[derive(Drop)]
pub struct ReadRecord {
    pub count: usize,
    pub neighbours: [u64; 64],
    pub codes: [u8; 64],
    pub used: u64,
}

// The record of a text, where it has the form. Past 64 lines only the form matters, and the places of the first are
// taken again.
pub fn read_text(text: &[u8]) -> Option<ReadRecord>
    ensures { TextTold text.now result }
{
    if !text.starts_with(&NAMES) {
        return None;
    }
    let mut neighbours = [0u64; 64];
    let mut codes = [0u8; 64];
    let mut used = 0;
    let mut count = 0;
    let mut at = NAMES.len();
    // no iterator: each line that was read says where the next begins
    while at < text.len() {
        let Ok(read) = read_line(count as u64, &text[at..]) else {
            return None;
        };
        let line = read.line;
        let place = count % 64;
        neighbours[place] = line.word;
        codes[place] = line.code;
        used = put_bit(used, place, line.used);
        at += read.size;
        count += 1;
    }
    Some(ReadRecord {
        count,
        neighbours,
        codes,
        used,
    })
}
