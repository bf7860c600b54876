// Words of 64 bits: masks, bits read, flipped and counted, the smallest and the largest set bit.
#![tactic(auto)]

pub mod transposition;

ghost use Rattle.std.specs.Prelude.{◌&&◌, not, true, ◌≡◌, ℕ, ◌+◌, ◌-◌, ◌<◌, ◌≤◌, ◌^◌, eqb, leb};
ghost use Rattle.std.specs.Int.Bits.{bit_xor};
ghost use Rattle.std.specs.Int.Count.{ones, count_trailing_zeros};
ghost use Rattle.words.specs.Bits.{◌⊕◌, bit, is_odd, put, word_of};
ghost use Rattle.words.specs.internal.Bits.{dot};

// The mask of n qubits: the bits below n are 1. No shift reaches 64.
pub fn mask(n: usize) -> u64
    requires { (1 ≤ n) × (n ≤ 64) }
    ensures { result ≡ 2 ^ n - 1 }
{
    u64::MAX >> (64 - n)
}

// Whether w has a bit at or above n.
pub fn stray(w: u64, n: usize) -> bool
    requires { (1 ≤ n) × (n ≤ 64) }
    ensures { result ≡ leb (2 ^ n) w }
{
    mask(n) < w
}

// Bit q of w.
pub fn has(w: u64, q: usize) -> bool
    requires { q < 64 }
    ensures { result ≡ bit w q }
{
    (w >> q) & 1 == 1
}

// Bit q of w for any number q: there is none above 63.
pub fn bit_at(w: u64, q: u64) -> bool
    ensures { result ≡ bit w q }
{
    q < 64 && has(w, q as usize)
}

// The bits that w has not.
pub fn others(w: u64) -> u64
    ensures { result ≡ word_of 64 (λ q. not (bit w q)) }
{
    !w
}

// The word with bit q alone.
pub fn single(q: usize) -> u64
    requires { q < 64 }
    ensures { result ≡ 2 ^ q }
{
    1 << q
}

// w with bit q flipped.
pub fn flip(w: u64, q: usize) -> u64
    requires { q < 64 }
    ensures { result ≡ bit_xor w (2 ^ q) }
{
    w ^ single(q)
}

// w with bit q flipped where b is true.
pub fn flip_where(w: u64, q: usize, b: bool) -> u64
    requires { q < 64 }
    ensures { (j : ℕ) → bit result j ≡ bit w j ⊕ (eqb j q && b) }
{
    if b { flip(w, q) } else { w }
}

// w with bit q set to b.
pub fn put_bit(w: u64, q: usize, b: bool) -> u64
    requires { q < 64 }
    ensures { (j : ℕ) → bit result j ≡ put (bit w) q b j }
{
    if has(w, q) == b { w } else { flip(w, q) }
}

// The word where b is true, else no bit.
pub fn where_true(b: bool, word: u64) -> u64
    ensures { (q : ℕ) → bit result q ≡ (b && bit word q) }
{
    if b { word } else { 0 }
}

// The number of ones.
pub fn count(w: u64) -> u64
    ensures { (result ≡ ones w) × (result ≤ 64) }
{
    w.count_ones() as u64
}

// Whether the number of ones is odd.
pub fn odd(w: u64) -> bool
    ensures { result ≡ is_odd (ones w) }
{
    w.count_ones() % 2 == 1
}

// Whether the places where both words have a 1 are odd in number.
pub fn dot_product(a: u64, b: u64) -> bool
    ensures { result ≡ dot a b }
{
    odd(a & b)
}

// The smallest set bit; 64 where there is none.
pub fn smallest(w: u64) -> usize
    ensures { (result ≡ count_trailing_zeros 64 w) × (result ≤ 64) }
{
    w.trailing_zeros() as usize
}

// w without its smallest set bit: sooner there than a flip, which waits for the number of the bit.
pub fn without_smallest(w: u64) -> u64
    requires { w ≡ 0 → ⊥ }
    ensures { result ≡ bit_xor w (2 ^ count_trailing_zeros 64 w) }
{
    w & (w - 1)
}

// The largest set bit of a word that is not 0.
pub fn largest(w: u64) -> usize
    requires { w ≡ 0 → ⊥ }
    ensures { (bit w result ≡ true) × (w < 2 ^ (result + 1)) }
{
    63 - w.leading_zeros() as usize
}
