// The image of a graph under one local Clifford for each vertex.
ghost use Rattle.std.specs.Prelude.{cond, List, ◌≡◌, ℕ, ◌<◌, ◌≤◌, eqb, get_or, length};
ghost use Rattle.words.specs.Bits.{◌⊕◌, bit, digit};
ghost use Rattle.words.specs.internal.Bits.{dot};
ghost use Rattle.operations.specs.internal.InPlace.{Unrefused, record_in};
ghost use Rattle.record.specs.Accepted.{AcceptedRecord};
ghost use Rattle.record.specs.Lent.{held_record, lent_record};
ghost use Rattle.buffers.specs.internal.Numbers.{number_of};
ghost use Rattle.image_impl.specs.internal.Answer.{IsImage, IsImageList};
ghost use Rattle.image_impl.specs.internal.Working.{Ruled, Tracking, working};

use crate::complementing::Tracked;
use crate::image_loop::run_rule;
use buffers::copies::copy_record;
use buffers::refusals::Refusal;
use clifford_impl::codes::Code;
use clifford_impl::rows::action_of;
use words::{dot_product, flip_where, has};

// Whether there is an image, and how many vertices are on the list, refused or not.
#[derive(Clone, Copy)]
pub struct Told {
    pub answer: Result<(), Refusal>,
    pub count: usize,
}

// The bits C and D of the codes, and nothing on the list.
fn begin(codes: &[u8]) -> Tracked
    requires { (length codes.now ≤ 64) × ((q : ℕ) → get_or codes.now q 0 < 24) }
    ensures count_value { result.count ≡ 0 }
    ensures by_index { (words list : List ℕ) → Unrefused (record_in words codes.now) → length list ≡ 96
        → Tracking (length words) (working words codes.now list result) }
{
    let mut c = 0;
    let mut d = 0;
    for (q, &index) in codes.iter().enumerate() {
        c = flip_where(c, q, Code { index }.c_bit());
        d = flip_where(d, q, Code { index }.d_bit());
    }
    Tracked { c, d, count: 0 }
}

// The sign of generator j: that of X at j, and those of Z at the neighbours of j.
fn sign_byte(around: u64, sx: u64, sz: u64, j: usize) -> u8
    requires { j < 64 }
    ensures { result ≡ digit (bit sx j ⊕ dot around sz) }
{
    u8::from(has(sx, j) != dot_product(around, sz))
}

// A sign byte for each vertex.
fn sign_bytes(graph: &[u64], sx: u64, sz: u64, signs: &mut [u8])
    requires { (length graph.now ≤ 64) × (length signs.old ≡ length graph.now) }
    ensures { (j : ℕ) → j < length graph.now → get_or signs.new j 0
        ≡ digit (bit sx j ⊕ dot (get_or graph.now j 0) sz) }
{
    for (j, &around) in graph.iter().enumerate() {
        signs[j] = sign_byte(around, sx, sz, j);
    }
}

// Whether the rule ended with an image graph: some C may be left, or X go to Y somewhere.
fn image_refusal(c: u64, y: u64) -> Result<(), Refusal>
    ensures { number_of result ≡ cond (eqb c 0) (cond (eqb y 0) 0 12) 11 }
{
    if c != 0 {
        return Err(Refusal::ImageC);
    }
    if y != 0 {
        return Err(Refusal::ImageY);
    }
    Ok(())
}

// The image rule on a copy of the record, in lent buffers.
fn rule_on(
    neighbours: &[u64],
    codes: &[u8],
    words: &mut [u64],
    bytes: &mut [u8],
    list: &mut [u8],
) -> Tracked
    requires unrefused { Unrefused (record_in neighbours.now codes.now) }
    requires words_len { (length words.old ≡ length neighbours.now) × (length bytes.old ≡ length neighbours.now)
        × (length list.old ≡ 96) }
    ensures { Ruled (length neighbours.now) (held_record (record_in neighbours.now codes.now))
        (working words.new bytes.new list.new result) }
{
    copy_record(neighbours, codes, words, bytes);
    run_rule(words, bytes, list, begin(bytes))
}

// The image in lent buffers, and how many vertices are on the list. The rule runs on a copy of the record, whose words
// become the image graph; the signs are written over its codes. X goes to Y where the image of X has both a z bit and an
// x bit.
pub fn image_in(
    neighbours: &[u64],
    codes: &[u8],
    words: &mut [u64],
    bytes: &mut [u8],
    list: &mut [u8],
) -> Told
    requires unrefused { Unrefused (record_in neighbours.now codes.now) }
    requires words_len { (length words.old ≡ length neighbours.now) × (length bytes.old ≡ length neighbours.now)
        × (length list.old ≡ 96) }
    ensures { IsImage (length neighbours.now)
        (held_record (record_in neighbours.now codes.now)) result words.new bytes.new list.new }
{
    let end = rule_on(neighbours, codes, words, bytes, list);
    let left = action_of(bytes);
    sign_bytes(words, left.sx, left.sz, bytes);
    Told {
        answer: image_refusal(end.c, left.b & left.d),
        count: end.count,
    }
}

// The vertices that the image rule complements, at the start of the list, whether or not the image is refused. Returns
// how many there are.
pub fn image_list(n: usize, neighbours: &[u64], codes: &[u8], list: &mut [u8]) -> usize
    requires accepted { AcceptedRecord (lent_record n neighbours.now codes.now) }
    requires list_len { length list.old ≡ 96 }
    ensures { IsImageList n (held_record (lent_record n neighbours.now codes.now)) list.new result }
{
    let mut words = [0u64; 64];
    let mut bytes = [0u8; 64];
    rule_on(neighbours, codes, &mut words[..n], &mut bytes[..n], list).count
}
