// The codes that a choice induces between two reduced graphs.
ghost use Rattle.std.specs.Prelude.{◌≡◌, ◌<◌, length};
ghost use Rattle.buffers.specs.Buffers.{tabulate};
ghost use Rattle.clifford.specs.Clifford.{clifford_of, code_of, inverse, then};
ghost use Rattle.comparison.specs.internal.Compared.{induced_code};
ghost use Rattle.comparison.specs.internal.Setting.{Codes};

use clifford_impl::codes::Code;
use clifford_impl::numbers::compose;

// The first record's code, then the choice's, then the inverse of the second's.
fn induced_code(first: u8, choice: u8, second: u8) -> u8
    requires { (first < 24) × (choice < 24) × (second < 24) }
    ensures { result ≡ code_of (then (then (clifford_of first) (clifford_of choice)) (inverse (clifford_of second))) }
{
    let undone = Code { index: second }.inverse();
    compose(compose(first, choice), undone.index)
}

// .. at each qubit.
pub fn induced_codes(first: &[u8], choice: &[u8], second: &[u8], induced: &mut [u8])
    requires first_len { (length first.now ≡ length induced.old) × (length choice.now ≡ length induced.old) }
    requires second_len { length second.now ≡ length induced.old }
    requires codes { Codes first.now × Codes choice.now × Codes second.now }
    ensures { induced.new ≡ tabulate (length induced.old)
        (induced_code first.now choice.now second.now) }
{
    for q in 0..induced.len() {
        induced[q] = induced_code(first[q], choice[q], second[q]);
    }
}
