// The tests of lent buffers that several lines of the refusals share, copies into them, and signs as they are lent.
// The one shape of every public call's contract: see specs/ for the definitions and proofs/ for the laws.
#![tactic(auto)]

pub mod arrays;
pub mod copies;
mod copying;
pub mod earliest;
pub mod refusals;

ghost use Rattle.std.specs.Prelude.{not, ◌≡◌, ◌^◌, ◌≤◌, eqb};
ghost use Rattle.buffers.specs.Refusals.{bad_count, reaching};
ghost use Rattle.words.specs.Bits.{digit};

pub use copying::{copy_first, copy_front};
use words::stray;

// Line 2: n is 0 or above 64.
pub fn bad_count(n: u64) -> bool
    ensures { result ≡ bad_count n }
{
    (n == 0) | (64 < n)
}

// Line 4: whether a buffer's length is other than n.
pub fn other_than(length: usize, n: u64) -> bool
    ensures { result ≡ not (eqb length n) }
{
    length as u64 != n
}

// Line 6: whether some number of the buffer is b or above.
pub fn reaches(buffer: &[u8], b: u8) -> bool
    ensures { result ≡ reaching b buffer.now }
{
    let mut found = false;
    for &value in buffer {
        found = found | (b <= value);
    }
    found
}

// Line 5: whether some word of the buffer has a bit at or above n.
pub fn strays(buffer: &[u64], n: usize) -> bool
    requires { (1 ≤ n) × (n ≤ 64) }
    ensures { result ≡ reaching (2 ^ n) buffer.now }
{
    let mut all = 0;
    for &word in buffer {
        all = all | word;
    }
    stray(all, n)
}

// A sign as it is lent: 1 means minus.
pub fn sign_digit(minus: bool) -> u8
    ensures { result ≡ digit minus }
{
    minus as u8
}
