// The first class and the first signs that tables of equations allow at a qubit.
ghost use Rattle.std.specs.Prelude.{List, ◌≡◌, ℕ, ◌<◌, length};
ghost use Rattle.clifford.specs.Clifford.{Clifford};
ghost use Rattle.clifford.specs.Vectors.{codes_of};
ghost use Rattle.comparison.specs.internal.Equations.{Assignment, assignment_of, class_assignment, equations_in, sign_assignment};
ghost use Rattle.comparison.specs.internal.Searches.{with_class, with_signs};
ghost use Rattle.comparison_search.specs.internal.Answered.{FirstAnswered};

use crate::assignments::{with_class, with_signs};
use crate::equations::broken;

// The first key below a bound that, put in at qubit q, the equations of this qubit allow.
fn first_fit<F: Fn([u64; 4], usize, u8) -> [u64; 4]>(
    table: &[[u64; 4]; 256],
    held: [u64; 4],
    q: usize,
    bound: u8,
    put: F,
) -> Option<u8>
    requires q_bound { q < 64 }
    requires callable { (v : ℕ) → v < bound → F.pre put held q v }
    ensures { (A : (ℕ → Clifford) → Assignment) (next : ℕ → ℕ → Clifford)
        → ((v : ℕ) (w : List ℕ) → v < bound → F.post put held q v w → assignment_of w ≡ A (next v))
        → FirstAnswered A (equations_in table.now) q next bound result }
{
    for v in 0..bound {
        if !broken(table, q, put(held, q, v)) {
            return Some(v);
        }
    }
    None
}

// The first class at qubit q that the equations allow beside the values held for the other qubits.
pub fn least_class(table: &[[u64; 4]; 256], held: [u64; 4], q: usize) -> Option<u8>
    requires { q < 64 }
    ensures { (n : ℕ) (choice : List ℕ) → q < n → q < length choice
        → assignment_of held ≡ class_assignment n (codes_of choice)
        → FirstAnswered (class_assignment n) (equations_in table.now) q (λ u. codes_of (with_class choice q u)) 6 result }
{
    first_fit(table, held, q, 6, with_class)
}

// The first signs at qubit q that the equations allow beside the values held for the other qubits.
pub fn least_sign(table: &[[u64; 4]; 256], held: [u64; 4], q: usize) -> Option<u8>
    requires { q < 64 }
    ensures { (n : ℕ) (choice : List ℕ) → q < n → q < length choice
        → assignment_of held ≡ sign_assignment n (codes_of choice)
        → FirstAnswered (sign_assignment n) (equations_in table.now) q (λ u. codes_of (with_signs choice q u)) 4 result }
{
    first_fit(table, held, q, 4, with_signs)
}
