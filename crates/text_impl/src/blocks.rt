// Reads the text of a generator list in blocks of any size. A scan is a few numbers; the first 64 lines go to lent
// buffers.
ghost use Rattle.std.specs.Prelude.{◌≡◌};
ghost use Rattle.text.specs.internal.Scan.{begin, fed, as_reading, verdict};

use crate::scanning::scan_byte;
use text::scan::{Place, Scan};

// The scan of the empty text.
#[tactic(auto, unfolding(text::specs::internal::Scan::begin))]
pub fn start() -> Scan
    ensures { result ≡ begin }
{
    Scan {
        place: Place::Names(0),
        sign: 0,
        z: 0,
        x: 0,
        count: 0,
    }
}

// The scan after a block more; the lines that end in it, if they are of the first 64, are in the buffers.
pub fn scan_block(
    from: Scan,
    block: &[u8],
    signs: &mut [u8; 64],
    z: &mut [u64; 64],
    x: &mut [u64; 64],
) -> Scan
    ensures { as_reading result signs.new z.new x.new
        ≡ fed (as_reading from signs.old z.old x.old) block.now }
{
    let mut s = from;
    for &b in block {
        let next = scan_byte(s, b);
        let row = s.count;
        let count = next.count;
        if (row < count) & (row < 64) {
            signs[row] = s.sign;
            z[row] = s.z;
            x[row] = s.x;
        }
        s = next;
    }
    s
}

// The text ends: how many lines are counted, `Ok` where it has the form and `Err` where it has not.
#[tactic(auto, unfolding(text::specs::internal::Scan::verdict))]
pub fn finish(s: Scan) -> Result<usize, usize>
    ensures { result ≡ verdict s }
{
    match s.place {
        Place::Sign => Ok(s.count),
        _ => Err(s.count),
    }
}
