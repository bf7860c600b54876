// Codes by their numbers: one and then another, and the codes with which records are rewritten, by their names.
ghost use Rattle.std.specs.Prelude.{◌≡◌, ℕ, ◌<◌, get_or};
ghost use Rattle.clifford.specs.Clifford.{clifford_of, code_of, then};

use crate::codes::Code;

pub const Z: u8 = 2;

pub const S_DAG: u8 = 6;

pub const H_NXZ: u8 = 11;

pub const SQRT_X: u8 = 13;

// The number of a code and then another.
pub fn compose(first: u8, next: u8) -> u8
    requires { (first < 24) × (next < 24) }
    ensures { (result ≡ code_of (then (clifford_of first) (clifford_of next))) × (result < 24) }
{
    Code { index: first }.then(Code { index: next }).index
}

// The numbers of a code and then each of the 24, for a loop that puts it before many.
pub fn before_each(first: u8) -> [u8; 24]
    requires { first < 24 }
    ensures { (b : ℕ) → b < 24 → get_or result b 0 ≡ code_of (then (clifford_of first) (clifford_of b)) }
{
    Code { index: first }.before_each()
}
