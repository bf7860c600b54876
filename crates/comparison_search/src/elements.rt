// Elements of the group of the second record: found by their x bits once the record's codes are undone.
ghost use Rattle.std.specs.Prelude.{◌≡◌, false, ℕ, ◌≤◌};
ghost use Rattle.pauli.specs.Pauli.{anticommute, mul};
ghost use Rattle.pauli.specs.internal.Rows.{generator_of};
ghost use Rattle.clifford.specs.Clifford.{Clifford};
ghost use Rattle.clifford_impl.specs.internal.Actions.{ActsAs};
ghost use Rattle.comparison.specs.internal.Setting.{Framed, Guessed, generators_in, generators_of};

use crate::rows::generator_at;
use clifford_impl::rows::{Action, act_on};
use pauli::{Generator, letters_minus};
use words::has;

// The product of two generators that commute.
fn times(p: Generator, g: Generator) -> Generator
    requires { anticommute 64 (generator_of p) (generator_of g) ≡ false }
    ensures { generator_of result ≡ mul 64 (generator_of p) (generator_of g) }
{
    let letters = letters_minus(p.z, p.x, g.z, g.x);
    Generator {
        minus: (p.minus ^ g.minus) ^ letters,
        z: p.z ^ g.z,
        x: p.x ^ g.x,
    }
}

// An element of the second group: the row itself, or its negative, if that is one.
pub fn element(n: usize, second: &[[u64; 3]; 64], frame: Action, p: Generator) -> Generator
    requires { (n ≤ 64) × ((k : ℕ → Clifford) × Framed n (generators_of (generators_in second.now)) k × ActsAs k
        frame) }
    ensures { Guessed n (generators_of (generators_in second.now)) (generator_of p) (generator_of result) }
{
    let undone = act_on(p, frame);
    let w = undone.x;
    let mut h = Generator {
        minus: false,
        z: 0,
        x: 0,
    };
    for j in 0..n {
        if has(w, j) {
            let g = generator_at(second, j);
            h = times(h, g);
        }
    }
    h
}
