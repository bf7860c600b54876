// The marked numbers, written rising.
ghost use Rattle.std.specs.Prelude.{map, ◌≡◌, ◌+◌, ◌≤◌, length};
ghost use Rattle.buffers.specs.Buffers.{written};
ghost use Rattle.orbits.specs.Orbits.{selected};
ghost use Rattle.orbits_impl.specs.internal.Marks.{marked};
ghost use Rattle.buffers.specs.Writing.{Printed};
ghost use Rattle.words.specs.Bits.{bit};

use words::{flip, smallest};

// The numbers of one word of marks, from place at on. Returns the place behind them.
fn write_word(word: u64, base: usize, list: &mut [u16], at: usize) -> usize
    requires { (base + 64 ≤ 32768) × (at + length (selected 64 (bit word)) ≤ length list.old) }
    ensures { Printed (map (λ v. base + v) (selected 64 (bit word))) at list.old list.new
        result }
{
    let mut end = at;
    // no `for`: over the bits of a word, from the smallest
    let mut rest = word;
    while rest != 0 {
        let q = smallest(rest);
        list[end] = (base + q) as u16;
        end += 1;
        rest = flip(rest, q);
    }
    end
}

// All marked numbers, at the start of the list. Returns how many there are.
pub fn write_marked(marks: &[u64; 512], list: &mut [u16]) -> usize
    requires { length list.old ≡ 32768 }
    ensures { (list.new ≡ written (selected 32768 (marked marks.now)) list.old)
        × (result ≡ length (selected 32768 (marked marks.now))) }
{
    let mut end = 0;
    for (w, &word) in marks.iter().enumerate() {
        end = write_word(word, w * 64, list, end);
    }
    end
}
