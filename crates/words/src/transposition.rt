// The transpose of a square of bits, a word for each row: six rounds that exchange blocks.
ghost use Rattle.std.specs.Prelude.{◌<◌, ◌≤◌, ◌≡◌, length};
ghost use Rattle.words.specs.internal.Squares.{Exchanged, Fits, Round, Size, Transposed};

// The next size that has its rounds.
fn size_for(n: usize) -> usize
    requires { n ≤ 64 }
    ensures { (n ≤ result) × Size result }
{
    if 32 < n {
        64
    } else if 16 < n {
        32
    } else if 8 < n {
        16
    } else {
        8
    }
}

// One round on m rows and columns: bit s of the row's number and of the column's are exchanged. `low` has the columns
// whose numbers lack it.
fn exchange(rows: &mut [u64; 64], m: usize, s: usize, low: u64)
    requires rows_len { (length rows.old ≡ 64) × (m ≤ 64) }
    requires round { Round s low × (s < m → Fits m s) }
    ensures { Exchanged m s rows.old rows.new }
{
    if m <= s {
        return;
    }
    for i in 0..m / (2 * s) {
        let block = i * (2 * s);
        for k in block..block + s {
            let a = rows[k];
            let b = rows[k + s];
            let d = ((a >> s) ^ b) & low;
            rows[k] = a ^ (d << s);
            rows[k + s] = b ^ d;
        }
    }
}

// Transposes the first n rows and columns. What lies outside them may change.
pub fn transpose(rows: &mut [u64; 64], n: usize)
    requires { (length rows.old ≡ 64) × (n ≤ 64) }
    ensures { Transposed n rows.old rows.new }
{
    let m = size_for(n);
    exchange(rows, m, 32, 0x0000_0000_FFFF_FFFF);
    exchange(rows, m, 16, 0x0000_FFFF_0000_FFFF);
    exchange(rows, m, 8, 0x00FF_00FF_00FF_00FF);
    exchange(rows, m, 4, 0x0F0F_0F0F_0F0F_0F0F);
    exchange(rows, m, 2, 0x3333_3333_3333_3333);
    exchange(rows, m, 1, 0x5555_5555_5555_5555);
}
