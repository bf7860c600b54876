// The text of a job, the scan of it, and the text of its results: see specs/ and proofs/.
ghost use Rattle.std.specs.Prelude.{◌≡◌};
ghost use Rattle.jobs.specs.internal.Scan.{letters};

use crate::Op;

// An operation and the space behind it, filled up to 11 bytes.
pub fn op_letters(op: Op) -> [u8; 11]
    ensures { result ≡ letters op }
{
    match op {
        Op::Gate => *b"gate \0\0\0\0\0\0",
        Op::Cz => *b"cz \0\0\0\0\0\0\0\0",
        Op::Measure => *b"measure \0\0\0",
        Op::Complement => *b"complement ",
        Op::Pivot => *b"pivot \0\0\0\0\0",
        Op::Observe => *b"observe \0\0\0",
        Op::Renew => *b"renew \0\0\0\0\0",
    }
}
