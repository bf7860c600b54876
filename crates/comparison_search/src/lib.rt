// The least choice: for each qubit in turn the first class that the equations allow, then for each the first signs; and
// the comparison of two records by it. Neither loop steps back: at most 6 classes and 4 signs are tried at a qubit.
#![tactic(auto)]

mod assignments;
mod choices;
mod elements;
mod equations;
pub mod induced;
mod placing;
mod records;
mod rows;
mod tables;

ghost use Rattle.std.specs.Prelude.{[], ◌≤◌, is_some, unwrap_or};
ghost use Rattle.comparison.specs.Choices.{class_key, sign_key};
ghost use Rattle.comparison.specs.internal.Equations.{EmptyFrom, Triangular, class_assignment, sign_assignment, equations_in};
ghost use Rattle.comparison.specs.internal.Searches.{ClassesAnswered, Extendable, LeastAnswer, SignsChosen};
ghost use Rattle.comparison.specs.internal.Setting.{
  Codes,
  Connected,
  Setting,
  SoundRecord,
  generators_in,
  generators_of,
  held_generators,
};
ghost use Rattle.record.specs.NeighbourWords.{graph_in};

use crate::assignments::{class_words, sign_words, with_class, with_signs};
use crate::choices::{least_class, least_sign};
use crate::equations::wipe;
use crate::records::{generators, inverses};
use crate::tables::{class_table, sign_table};

// For each qubit in turn the first class that the equations allow. There is none at the first qubit, or always one.
fn least_classes(n: usize, table: &[[u64; 4]; 256]) -> Option<[u8; 64]>
    requires { (n ≤ 64) × Triangular (equations_in table.now)
        × Extendable (class_assignment n) class_key 1 n (equations_in table.now) }
    ensures { ClassesAnswered n (equations_in table.now) (is_some result) (unwrap_or result []) }
{
    let mut choice = [0u8; 64];
    let mut held = class_words(n, &choice);
    for q in 0..n {
        let v = least_class(table, held, q)?;
        choice[q] = 4 * v;
        let next = with_class(held, q, v);
        held = next;
    }
    Some(choice)
}

// For each qubit in turn the first signs that the equations allow, the classes kept.
fn least_signs(n: usize, table: &[[u64; 4]; 256], classes: &[u8; 64]) -> [u8; 64]
    requires n_bound { (n ≤ 64) × Triangular (equations_in table.now)
        × Extendable (sign_assignment n) sign_key 0 n (equations_in table.now) }
    requires codes { Codes classes.now }
    ensures { SignsChosen n (equations_in table.now) classes.now n result }
{
    let mut choice = *classes;
    let mut held = sign_words(n, &choice);
    for q in 0..n {
        let v = least_sign(table, held, q).unwrap();
        choice[q] = 4 * (choice[q] / 4) + v;
        let next = with_signs(held, q, v);
        held = next;
    }
    choice
}

// The least choice that carries the first group onto the second, by a table without equations, which it leaves so.
fn least_choice(
    table: &mut [[u64; 4]; 256],
    n: usize,
    first: &[[u64; 3]; 64],
    second: &[[u64; 3]; 64],
    frame: &[u8; 64],
) -> Option<[u8; 64]>
    requires setting { Setting n (generators_in first.now) (generators_in second.now) frame.now }
    requires empty_from { EmptyFrom 0 (equations_in table.old) }
    ensures least_answer { LeastAnswer n (generators_of (generators_in first.now))
        (generators_of (generators_in second.now))
        (is_some result) (unwrap_or result []) }
    ensures empty_from_2 { EmptyFrom 0 (equations_in table.new) }
{
    class_table(table, n, first, second);
    let answer = least_classes(n, table);
    wipe(table, 4 * n);
    let classes = answer?;
    sign_table(table, n, first, second, frame, &classes);
    let choice = least_signs(n, table, &classes);
    wipe(table, 4 * n);
    Some(choice)
}

// The least choice that carries the group of the first record onto that of the second, by such a table.
pub fn search_records(
    table: &mut [[u64; 4]; 256],
    n: usize,
    neighbours: &[u64],
    codes: &[u8],
    neighbours2: &[u64],
    codes2: &[u8],
) -> Option<[u8; 64]>
    requires n_bound { (n ≤ 64) × SoundRecord n neighbours.now codes.now }
    requires sound_record { SoundRecord n neighbours2.now codes2.now × Connected n (graph_in neighbours.now) }
    requires empty_from { EmptyFrom 0 (equations_in table.old) }
    ensures least_answer { LeastAnswer n (held_generators n neighbours.now codes.now)
        (held_generators n neighbours2.now codes2.now) (is_some result) (unwrap_or result []) }
    ensures empty_from_2 { EmptyFrom 0 (equations_in table.new) }
{
    let mut first = [[0u64; 3]; 64];
    generators(n, neighbours, codes, &mut first);
    let mut second = [[0u64; 3]; 64];
    generators(n, neighbours2, codes2, &mut second);
    let frame = inverses(n, codes2);
    least_choice(table, n, &first, &second, &frame)
}
