// Lent records copied into other buffers, and into arrays.
ghost use Rattle.std.specs.Prelude.{◌≡◌, length};

use crate::copying::copy_front;

// Copies a record into two buffers with as many places.
pub fn copy_record(neighbours: &[u64], codes: &[u8], words: &mut [u64], bytes: &mut [u8])
    requires codes_len { length codes.now ≡ length neighbours.now }
    requires words_len { (length words.old ≡ length neighbours.now)
        × (length bytes.old ≡ length neighbours.now) }
    ensures { (words.new ≡ neighbours.now)
        × (bytes.new ≡ codes.now) }
{
    copy_front(neighbours, words);
    copy_front(codes, bytes);
}
