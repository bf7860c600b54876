// The refusal of several lists or records together: the first of theirs in checking order.
ghost use Rattle.std.specs.Prelude.{◌≡◌};
ghost use Rattle.buffers.specs.internal.Numbers.{number_of};
ghost use Rattle.buffers.specs.internal.Earlier.{earlier_of};

use crate::refusals::Refusal;

// The number of the line that comes first in checking order; 0 stands for no line.
pub fn earlier(a: u8, b: u8) -> u8
    ensures { result ≡ earlier_of a b }
{
    if a == 0 {
        return b;
    }
    if b == 0 {
        return a;
    }
    if a < b { a } else { b }
}

// The refusal that comes first in checking order, where one of the two refuses.
pub fn earlier_refusal(a: Result<(), Refusal>, b: Result<(), Refusal>) -> Result<(), Refusal>
    ensures { number_of result ≡ earlier_of (number_of a) (number_of b) }
{
    let Err(one) = a else {
        return b;
    };
    let Err(other) = b else {
        return a;
    };
    if earlier(one.number(), other.number()) == one.number() {
        a
    } else {
        b
    }
}
