// The public call on the image of a graph.
ghost use Rattle.buffers.specs.internal.Numbers.{number_of};
ghost use Rattle.buffers.specs.Calls.{Call};
ghost use Rattle.calls.specs.Images.{image_call};
ghost use Rattle.record.specs.Lent.{lent_record};

use buffers::refusals::Refusal;
use buffers::{copy_first, copy_front, other_than};
use image_impl::answer::image_in;
use record_impl::checks::record_refusal;

// The image graph, its signs, and the list of the vertices complemented.
pub fn image(
    n: u64,
    neighbours: &[u64],
    codes: &[u8],
    image: &mut [u64],
    signs: &mut [u8],
    list: &mut [u8],
    count: &mut u64,
) -> Result<(), Refusal>
    ensures { Call (image_call
        (lent_record n neighbours.now codes.now)
        image.old signs.old list.old count.old
        image.new signs.new list.new count.new) (number_of result) }
{
    let others = other_than(image.len(), n)
        | (other_than(signs.len(), n) | other_than(list.len(), 96));
    record_refusal(n, neighbours, codes, others, false)?;
    let k = n as usize;
    let mut graph = [0u64; 64];
    let mut minus = [0u8; 64];
    let mut vertices = [0u8; 96];
    let told = image_in(
        neighbours,
        codes,
        &mut graph[..k],
        &mut minus[..k],
        &mut vertices,
    );
    told.answer?;
    copy_first(&graph, image);
    copy_first(&minus, signs);
    copy_front(&vertices[..told.count], list);
    *count = told.count as u64;
    Ok(())
}
