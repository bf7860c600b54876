// One code for each qubit, as words: a row's letters are all sent through their codes at once.
ghost use Rattle.std.specs.Prelude.{◌≡◌, ℕ, ◌<◌, ◌≤◌, get_or, length};
ghost use Rattle.clifford.specs.Clifford.{Clifford, inverse};
ghost use Rattle.clifford.specs.Vectors.{act, codes_of};
ghost use Rattle.pauli.specs.internal.Rows.{generator_of};
ghost use Rattle.words.specs.Bits.{bit, digit};
ghost use Rattle.clifford_impl.specs.internal.Actions.{ActsAs, SignsOf};

use pauli::Generator;
use words::{has, odd};

// The action of the codes on the words z and x of a row: z becomes a z + b x and x becomes c z + d x, place by place;
// sx, sy and sz have the places where the image of X, Y or Z is negative.
#[derive(Clone, Copy)]
pub struct Action {
    pub a: u64,
    pub b: u64,
    pub c: u64,
    pub d: u64,
    pub sx: u64,
    pub sy: u64,
    pub sz: u64,
}

// Bit k of a code.
fn digit_of(code: u8, k: usize) -> u64
    requires { k < 64 }
    ensures { result ≡ digit (bit code k) }
{
    has(code as u64, k) as u64
}

// Bit k of every code.
fn digit_word(codes: &[u8], k: usize) -> u64
    requires { (length codes.now ≤ 64) × (k < 64) }
    ensures { (q : ℕ) → bit result q ≡ bit (get_or codes.now q 0) k }
{
    let mut word = 0;
    for q in (0..codes.len()).rev() {
        word = word * 2 + digit_of(codes[q], k);
    }
    word
}

// The action of these codes, from their digits: two signs, and three bits of the class. A is 1 in all classes but 2 and
// 4, B in 1, 2, 4 and 5, C in 2 to 5, D in all but 2 and 5; the image of Y has one sign more in classes 1 to 3.
pub fn action_of(codes: &[u8]) -> Action
    requires { (length codes.now ≤ 64) × ((q : ℕ) → get_or codes.now q 0 < 24) }
    ensures { ActsAs (codes_of codes.now) result }
{
    let sz = digit_word(codes, 0);
    let sx = digit_word(codes, 1);
    let low = digit_word(codes, 2);
    let middle = digit_word(codes, 3);
    let high = digit_word(codes, 4);
    let c = middle | high;
    Action {
        a: 0xFFFF_FFFF_FFFF_FFFF ^ (c ^ (c & low)),
        b: high | (low ^ middle),
        c,
        d: 0xFFFF_FFFF_FFFF_FFFF ^ (middle ^ (low & (middle ^ high))),
        sx,
        sy: (sx ^ sz) ^ ((low | middle) ^ (low & high)),
        sz,
    }
}

// The places where the image of the letter of z and x is negative: a Y is neither an X nor a Z.
fn negative(by: Action, z: u64, x: u64) -> u64
    ensures { (k : ℕ → Clifford) → ActsAs k by → SignsOf k z x result }
{
    let y = z & x;
    (((x ^ y) & by.sx) ^ ((z ^ y) & by.sz)) ^ (y & by.sy)
}

// A row with each place sent through its own code.
pub fn act_on(g: Generator, by: Action) -> Generator
    ensures { (k : ℕ → Clifford) → ActsAs k by → generator_of result ≡ act 64 k (generator_of g) }
{
    let z = g.z;
    let x = g.x;
    Generator {
        minus: g.minus != odd(negative(by, z, x)),
        z: (z & by.a) ^ (x & by.b),
        x: (z & by.c) ^ (x & by.d),
    }
}

// The action that undoes this one: the inverse matrix, and the signs of the letters from which X, Y and Z come.
pub fn undoing(by: Action) -> Action
    ensures { (k : ℕ → Clifford) → ActsAs k by → ActsAs (λ q. inverse (k q)) result }
{
    let a = by.a;
    let b = by.b;
    let c = by.c;
    let d = by.d;
    Action {
        a: d,
        b,
        c,
        d: a,
        sx: negative(by, b, a),
        sy: negative(by, b ^ d, a ^ c),
        sz: negative(by, d, c),
    }
}
