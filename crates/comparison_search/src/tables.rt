// The tables of what every choice that works must satisfy.
ghost use Rattle.std.specs.Prelude.{List, ◌≡◌, ℕ, ◌+◌, ◌≤◌, get_or};
ghost use Rattle.clifford.specs.Vectors.{codes_of};
ghost use Rattle.comparison.specs.internal.Equations.{EmptyFrom, Triangular, class_equation, equation_of, equations_in, sign_equation};
ghost use Rattle.comparison.specs.internal.Setting.{NoSigns, Codes, Setting, generators_in, no_generator};
ghost use Rattle.comparison.specs.internal.Searches.{ClassTable, SentUpToSign, SignTable};

use crate::elements::element;
use crate::equations::insert;
use crate::rows::generator_at;
use clifford_impl::rows::{act_on, action_of};
use pauli::Generator;

// The equation on the classes by which the image of one generator commutes with another.
fn class_equation(g: Generator, h: Generator) -> [u64; 4]
    ensures { equation_of result ≡ class_equation g h }
{
    [g.z & h.x, g.x & h.x, g.z & h.z, g.x & h.z]
}

// The equation on the signs by which they change the sign of g's image as asked.
fn sign_equation(g: Generator, sum: bool) -> [u64; 4]
    ensures { equation_of result ≡ sign_equation g sum }
{
    [g.x, g.z, u64::from(sum), 0]
}

// The equations of one generator of the first group with all of the second.
fn class_rows(table: &mut [[u64; 4]; 256], n: usize, g: Generator, second: &[[u64; 3]; 64])
    requires { (n ≤ 64) × Triangular (equations_in table.old) }
    ensures { (first : List Generator) (i : ℕ) → g ≡ get_or first i no_generator
        → ClassTable n first (generators_in second.now) i 0 (equations_in table.old)
        → ClassTable n first (generators_in second.now) (i + 1) 0 (equations_in table.new) }
{
    for j in 0..n {
        let h = generator_at(second, j);
        let e = class_equation(g, h);
        insert(table, n, e);
    }
}

// The class equations put into an empty table.
pub fn class_table(
    table: &mut [[u64; 4]; 256],
    n: usize,
    first: &[[u64; 3]; 64],
    second: &[[u64; 3]; 64],
)
    requires { (n ≤ 64) × EmptyFrom 0 (equations_in table.old) }
    ensures { ClassTable n (generators_in first.now) (generators_in second.now) n 0
        (equations_in table.new) }
{
    for i in 0..n {
        let g = generator_at(first, i);
        class_rows(table, n, g, second);
    }
}

// The sign equations put into an empty table, for classes that send each generator into the second group up to a sign.
pub fn sign_table(
    table: &mut [[u64; 4]; 256],
    n: usize,
    first: &[[u64; 3]; 64],
    second: &[[u64; 3]; 64],
    frame: &[u8; 64],
    choice: &[u8; 64],
)
    requires setting { Setting n (generators_in first.now) (generators_in second.now) frame.now × Codes choice.now × NoSigns
        choice.now }
    requires sent_up_to_sign { SentUpToSign n (generators_in first.now) (generators_in second.now) (codes_of choice.now) × EmptyFrom 0
        (equations_in table.old) }
    ensures { SignTable n (generators_in first.now) (generators_in second.now)
        (codes_of choice.now) n
        (equations_in table.new) }
{
    let by = action_of(&choice[..n]);
    let undone = action_of(&frame[..n]);
    for i in 0..n {
        let g = generator_at(first, i);
        let p = act_on(g, by);
        let h = element(n, second, undone, p);
        let e = sign_equation(g, p.minus ^ h.minus);
        insert(table, n, e);
    }
}
