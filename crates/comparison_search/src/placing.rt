// Four words that hold four bits for each of 64 qubits: bit q of word l is bit l of qubit q.
ghost use Rattle.std.specs.Prelude.{◌<◌};
ghost use Rattle.comparison.specs.internal.Places.{Placed, SignsPlaced};

use words::{has, put_bit};

// The four words with the four bits of qubit q replaced.
pub fn place(w: [u64; 4], q: usize, four: u64) -> [u64; 4]
    requires { q < 64 }
    ensures { Placed w result q four }
{
    let a = put_bit(w[0], q, has(four, 0));
    let b = put_bit(w[1], q, has(four, 1));
    let c = put_bit(w[2], q, has(four, 2));
    let d = put_bit(w[3], q, has(four, 3));
    [a, b, c, d]
}

// The four words with the signs of a code at qubit q in the first two.
pub fn place_signs(w: [u64; 4], q: usize, v: u8) -> [u64; 4]
    requires { q < 64 }
    ensures { SignsPlaced w result q v }
{
    let a = put_bit(w[0], q, (v / 2) % 2 == 1);
    let b = put_bit(w[1], q, v % 2 == 1);
    [a, b, w[2], w[3]]
}
