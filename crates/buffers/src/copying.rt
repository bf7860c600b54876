// Items copied from one buffer to the first places of another, one by one: the library's copy looks at addresses, which
// are not numbers of one width on every processor.
ghost use Rattle.std.specs.Prelude.{◌≡◌, ◌≤◌, ◌++◌, drop, length, take};

// All items; the places past them keep theirs.
pub fn copy_front<T: Copy>(from: &[T], to: &mut [T])
    requires { length from.now ≤ length to.old }
    ensures { to.new ≡ from.now ++ drop (length from.now) to.old }
{
    for i in 0..from.len() {
        to[i] = from[i];
    }
}

// An item for every place; what is left over is not looked at.
pub fn copy_first<T: Copy>(from: &[T], to: &mut [T])
    requires { length to.old ≤ length from.now }
    ensures { to.new ≡ take (length to.old) from.now }
{
    copy_front(&from[..to.len()], to);
}
