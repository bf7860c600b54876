// Lent buffers copied into arrays.
ghost use Rattle.std.specs.Prelude.{◌≡◌, ℕ, ◌≤◌, get_or, length};

use crate::copying::copy_front;

// Lent words in an array; 0 past their end.
pub fn copied_words(lent: &[u64]) -> [u64; 64]
    requires { length lent.now ≤ 64 }
    ensures { (i : ℕ) → get_or result i 0 ≡ get_or lent.now i 0 }
{
    let mut words = [0u64; 64];
    copy_front(lent, &mut words);
    words
}
