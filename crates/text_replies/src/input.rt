// Reads the text of a generator list to its end and in blocks.
ghost use Rattle.std.specs.Prelude.{IfOk, OnErr};
ghost use Rattle.std.specs.Io.{ReadsAtMost};
ghost use Rattle.text_replies.specs.internal.Scanned.{Scanned, ScannedSoFar};

use std::io;
use std::io::Read;
use text_impl::blocks::{finish, scan_block, start};

// Reads until the block is full or the input ends, and returns how many bytes it put at the start of the block. The only
// error is that of a read, after which the block holds anything. On an empty block it makes no read.
pub fn read_full<R: Read>(input: &mut R, block: &mut [u8]) -> io::Result<usize>
    ensures { ReadsAtMost result block.new }
{
    let mut done = 0;
    // no range: each read says how far it came
    while done < block.len() {
        let got = input.read(&mut block[done..])?;
        if got == 0 {
            break;
        }
        done += got;
    }
    Ok(done)
}

// Reads the input to its end, block after block; the first 64 lines of the list go to the buffers. The only error is that
// of a read; of the blocks that were full before it, the lines are then in the buffers. What it reads to the end gets the
// verdict that `finish` gives, whatever text it is.
pub fn read_list<R: Read>(
    input: &mut R,
    signs: &mut [u8; 64],
    z: &mut [u64; 64],
    x: &mut [u64; 64],
) -> io::Result<Result<usize, usize>>
    ensures ok { IfOk result (Scanned signs.old z.old x.old signs.new z.new x.new) }
    ensures err { OnErr result (ScannedSoFar signs.old z.old x.old signs.new z.new x.new) }
{
    let mut scan = start();
    let mut block = [0u8; 65536];
    for _ in 0..u64::MAX {
        let got = read_full(input, &mut block)?;
        if got == 0 {
            return Ok(finish(scan));
        }
        scan = scan_block(scan, &block[..got], signs, z, x);
    }
    Ok(finish(scan))
}
