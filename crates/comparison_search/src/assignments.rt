// The unknowns of a choice in four words: the matrices of its classes, and its signs.
ghost use Rattle.std.specs.Prelude.{◌≡◌, List, ℕ, ◌<◌, ◌≤◌, length};
ghost use Rattle.clifford.specs.Clifford.{class_of};
ghost use Rattle.clifford.specs.Vectors.{codes_of};
ghost use Rattle.words.specs.Bits.{bit};
ghost use Rattle.comparison.specs.internal.Equations.{assignment_of, class_assignment, entry, sign_assignment};
ghost use Rattle.comparison.specs.internal.Searches.{with_class, with_signs};
ghost use Rattle.comparison.specs.internal.Setting.{Codes};

use crate::placing::{place, place_signs};

// The matrix of a class, four bits: image z = a z + b x, image x = c z + d x, and a is the lowest.
fn class_bits(v: u8) -> u64
    requires { v < 6 }
    ensures { (l : ℕ) → l < 4 → bit result l ≡ entry l (class_of v) }
{
    (0x007E_D6B9 >> (4 * v)) & 15
}

// The words of the classes of a choice.
pub fn class_words(n: usize, choice: &[u8; 64]) -> [u64; 4]
    requires { (n ≤ 64) × Codes choice.now }
    ensures { assignment_of result ≡ class_assignment n (codes_of choice.now) }
{
    let mut words = [0, 0, 0, 0];
    for q in 0..n {
        let four = class_bits(choice[q] / 4);
        let next = place(words, q, four);
        words = next;
    }
    words
}

// The words of a choice with class v put in at qubit q.
pub fn with_class(w: [u64; 4], q: usize, v: u8) -> [u64; 4]
    requires { (q < 64) × (v < 6) }
    ensures { (n : ℕ) (choice : List ℕ) → q < n → q < length choice
        → assignment_of w ≡ class_assignment n (codes_of choice)
        → assignment_of result ≡ class_assignment n (codes_of (with_class choice q v)) }
{
    let four = class_bits(v);
    place(w, q, four)
}

// The words of the signs of a choice. A loop of its own: with the start and the placing passed in, neither loop would say
// what it does.
pub fn sign_words(n: usize, choice: &[u8; 64]) -> [u64; 4]
    requires { n ≤ 64 }
    ensures { assignment_of result ≡ sign_assignment n (codes_of choice.now) }
{
    let mut words = [0, 0, 1, 0];
    for q in 0..n {
        let next = place_signs(words, q, choice[q]);
        words = next;
    }
    words
}

// The words of a choice with signs v put in at qubit q.
pub fn with_signs(w: [u64; 4], q: usize, v: u8) -> [u64; 4]
    requires { q < 64 }
    ensures { (n : ℕ) (choice : List ℕ) → q < n → q < length choice
        → assignment_of w ≡ sign_assignment n (codes_of choice)
        → assignment_of result ≡ sign_assignment n (codes_of (with_signs choice q v)) }
{
    place_signs(w, q, v)
}
