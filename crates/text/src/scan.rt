// The scan of a text of a generator list: a few numbers.

// What the next byte must be: a byte of the names line, a sign digit, the space after it, a digit of z or the space
// after the last, a digit of x or the newline. The number counts the bytes of the field that have been read.
#[derive(Clone, Copy)]
pub enum Place {
    Names(usize),
    Sign,
    Space,
    Z(usize),
    X(usize),
    Broken,
}

// The place, the line being read, and the number of lines read, of which at most 65 are counted.
#[derive(Clone, Copy)]
pub struct Scan {
    pub place: Place,
    pub sign: u8,
    pub z: u64,
    pub x: u64,
    pub count: usize,
}
