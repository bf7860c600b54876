// One look at all codes: whether one is 24 or more, and which vertices may be out of place, told by their codes alone. A
// code is a byte, and eight are looked at at once.
ghost use Rattle.std.specs.Prelude.{◌&&◌, ◌||◌, ◌≡◌, ℕ, ◌*◌, ◌+◌, ◌-◌, ◌<◌, ◌≤◌, ◌^◌, eqb, leb, get_or, length};
ghost use Rattle.std.specs.Option.{IfSome, is_none};
ghost use Rattle.buffers.specs.Refusals.{reaching};
ghost use Rattle.words.specs.Bits.{bit, digit, is_odd, word_of};
ghost use Rattle.operations_gates.specs.internal.Bytes.{Packed};
ghost use Rattle.operations_gates.specs.internal.Suspects.{Marked};

// A byte as a word.
fn byte(code: u8) -> u64
    ensures { (result ≡ code) × (result < 256) }
{
    code as u64
}

// The eight codes from place `from` on in a word, or as many as there are, the first lowest.
fn last_codes(codes: &[u8], from: usize) -> u64
    requires { from ≤ length codes.now }
    ensures { Packed codes.now from 8 result }
{
    let mut all = 0;
    for i in (from..codes.len()).rev() {
        all = (all << 8) | byte(codes[i]);
    }
    all
}

// Two codes in a word, the first lowest. The bytes are read one by one, and the compiler makes one load of eight.
fn two_codes(codes: &[u8], i: usize) -> u64
    requires { i + 2 ≤ length codes.now }
    ensures { Packed codes.now i 2 result }
{
    byte(codes[i]) | (byte(codes[i + 1]) << 8)
}

// Four, two above two.
fn four_codes(codes: &[u8], i: usize) -> u64
    requires { i + 4 ≤ length codes.now }
    ensures { Packed codes.now i 4 result }
{
    two_codes(codes, i) | (two_codes(codes, i + 2) << 16)
}

// Eight, four above four.
fn eight_codes(codes: &[u8], i: usize) -> u64
    requires { i + 8 ≤ length codes.now }
    ensures { Packed codes.now i 8 result }
{
    four_codes(codes, i) | (four_codes(codes, i + 4) << 32)
}

// A word that has one of the bits 5, 6 and 7 of a byte exactly if that byte of x is 24 or more: it has one of these, or
// the bits 3 and 4, which come to bit 5.
fn high_bits(x: u64) -> u64
    ensures { (k t : ℕ) → k < 8 → t < 3
        → bit result (8 * k + (5 + t)) ≡ (bit x (8 * k + (5 + t)) || (bit x (8 * k + (4 + t)) && bit x (8 * k + (3 + t)))) }
{
    x | ((x & (x << 1)) << 1)
}

// The lowest bit of each byte: whether bit 0, 3 or 4 of that byte of x is set, as in a code that is odd, or 8 or more.
fn marks(x: u64) -> u64
    ensures { (k t : ℕ) → k < 8 → t < 8 → bit result (8 * k + t)
        ≡ (eqb t 0 && (bit x (8 * k) || (bit x (8 * k + 3) || bit x (8 * k + 4)))) }
{
    (x | ((x >> 3) | (x >> 4))) & 0x0101_0101_0101_0101
}

// The transpose of eight rows of eight bits: places one, two and four apart are exchanged in turn.
fn turned(rows: u64) -> u64
    ensures upper_bound { result < 2 ^ 64 }
    ensures by_index { (j k : ℕ) → j < 8 → k < 8 → bit result (8 * j + k) ≡ bit rows (8 * k + j) }
{
    let a = (rows ^ (rows >> 7)) & 0x00AA_00AA_00AA_00AA;
    let once = (rows ^ a) ^ (a << 7);
    let b = (once ^ (once >> 14)) & 0x0000_CCCC_0000_CCCC;
    let twice = (once ^ b) ^ (b << 14);
    let c = (twice ^ (twice >> 28)) & 0xF0F0_F0F0;
    (twice ^ c) ^ (c << 28)
}

// The look: first at the codes above the last whole eight, then eight by eight. The marks of eight codes lie eight places
// apart, and those of the next eight between them. No branch in the loop looks at a code, since which codes are held
// cannot be foreseen. The vertices that may be out of place are the answer; none where a code is 24 or more.
pub fn look(codes: &[u8]) -> Option<u64>
    ensures over_value { is_none result ≡ reaching 24 codes.now }
    ensures marked { IfSome result (λ word. Marked codes.now word) }
{
    let eights = codes.len() / 8;
    let last = last_codes(codes, 8 * eights);
    let mut high = high_bits(last);
    let mut rows = marks(last);
    for e in (0..eights).rev() {
        let x = eight_codes(codes, 8 * e);
        high |= high_bits(x);
        rows = (rows << 1) | marks(x);
    }
    if high & 0xE0E0_E0E0_E0E0_E0E0 != 0 {
        return None;
    }
    Some(turned(rows))
}

// 1 for a code that is odd, or 8 or more: only with such a code can a vertex be out of place.
fn suspicious(code: u8) -> u64
    requires { code < 24 }
    ensures { result ≡ digit (is_odd code || leb 8 code) }
{
    (code & 25 != 0) as u64
}

// The codes from place `from` on, one by one.
fn suspects_from(codes: &[u8], from: usize) -> u64
    requires { (length codes.now ≤ 64) × ((q : ℕ) → get_or codes.now q 0 < 24) × (from ≤ length codes.now) }
    ensures { result ≡ word_of (length codes.now - from)
        (λ t. is_odd (get_or codes.now (from + t) 0) || leb 8 (get_or codes.now (from + t) 0)) }
{
    let mut all = 0;
    for i in (from..codes.len()).rev() {
        all = 2 * all + suspicious(codes[i]);
    }
    all
}

// A bit for each byte: whether bit 0, 3 or 4 of it is set. One bit of each byte is kept, those of the upper four bytes
// are laid between those of the lower, and a product brings all eight side by side.
fn marked_bytes(x: u64) -> u64
    ensures { (result < 256)
        × ((k : ℕ) → k < 8 → bit result k ≡ (bit x (8 * k) || (bit x (8 * k + 3) || bit x (8 * k + 4)))) }
{
    let z = (x | ((x >> 3) | (x >> 4))) & 0x0101_0101_0101_0101;
    let laid = (z | (z >> 28)) & 0xFFFF_FFFF;
    ((laid * 0x0020_4081) >> 21) & 0xFF
}

// The vertices with such codes, where all are below 24: first those above the last whole eight, then eight by eight. With
// few codes this is faster than the transposition.
pub fn suspects(codes: &[u8]) -> u64
    requires { (length codes.now ≤ 64) × ((q : ℕ) → get_or codes.now q 0 < 24) }
    ensures { Marked codes.now result }
{
    let eights = codes.len() / 8;
    let mut all = suspects_from(codes, 8 * eights);
    for e in (0..eights).rev() {
        let x = eight_codes(codes, 8 * e);
        all = 256 * all + marked_bytes(x);
    }
    all
}
