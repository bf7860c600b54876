// The passes of the elimination over the columns: what they do to the rows is in specs and proofs, the code that does it
// in `reduce_tableau` of lib.rt. Here is what a row's Y say of its sign.
ghost use Rattle.std.specs.Prelude.{◌≡◌};
ghost use Rattle.record_reduction.specs.internal.Relative.{half_y};

use words::count;

// Whether the pairs of Y in a row's letters are odd in number: the row's sign and its relative sign then differ.
pub fn odd_pairs(z: u64, x: u64) -> bool
    ensures { result ≡ half_y z x }
{
    (count(z & x) / 2) % 2 == 1
}
