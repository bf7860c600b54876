// The form of a text of Pauli strings, by position.
ghost use Rattle.std.specs.Prelude.{true, ◌≡◌, ◌<◌, suc, ℕ, ◌+◌, ◌≤◌, eqb, get_or, length};
ghost use Rattle.text.specs.Reading.{byte_at, is_letter, is_sign, line_count, line_fits, string_form};
ghost use Rattle.text.specs.Strings.{text_size};
ghost use Rattle.words.specs.Search.{every};

// How many bytes come before the first newline, or all of them.
fn before_newline(text: &[u8]) -> usize
    ensures within { result ≤ length text.now }
    ensures before { (k : ℕ) → k < result → get_or text.now k 0 ≡ 10 → ⊥ }
    ensures found { result < length text.now → get_or text.now result 0 ≡ 10 }
{
    text.iter().position(|&b| b == b'\n').unwrap_or(text.len())
}

// How many letters the first line has, up to the first newline behind its first byte.
pub fn letter_count(text: &[u8]) -> usize
    ensures { string_form text.now ≡ true → result ≡ line_count text.now }
{
    match text {
        [] => 0,
        [_, behind @ ..] => before_newline(behind),
    }
}

fn is_sign(b: u8) -> bool
    ensures { result ≡ is_sign b }
{
    matches!(b, b'+' | b'-')
}

fn is_letter(b: u8) -> bool
    ensures { result ≡ is_letter b }
{
    matches!(b, b'I' | b'X' | b'Y' | b'Z')
}

// Whether the n bytes behind a place are letters.
fn letters_fit(text: &[u8], from: usize, n: usize) -> bool
    requires { from + (n + 2) ≤ length text.now }
    ensures { result ≡ every n (λ q. is_letter (get_or text.now (from + suc q) 0)) }
{
    let mut fit = true;
    for q in 0..n {
        fit = fit & is_letter(text[from + (q + 1)]);
    }
    fit
}

// Whether a line of n letters starts at a place.
fn line_fits(text: &[u8], from: usize, n: usize) -> bool
    requires { from + (n + 2) ≤ length text.now }
    ensures { result ≡ line_fits n (λ c. get_or text.now (from + c) 0) }
{
    is_sign(text[from]) & (letters_fit(text, from, n) & (text[from + (n + 1)] == b'\n'))
}

// Whether each of n lines fits.
fn lines_fit(text: &[u8], n: usize) -> bool
    requires { length text.now ≡ text_size n }
    ensures { result ≡ every n (λ j. line_fits n (byte_at n text.now j)) }
{
    let mut fit = true;
    let mut from = 0;
    for _ in 0..n {
        fit = fit & line_fits(text, from, n);
        from += n + 2;
    }
    fit
}

// Whether a text of n lines has this length. No length is that of 2^32 lines.
fn has_size(length: usize, n: usize) -> bool
    ensures { result ≡ eqb length (text_size n) }
{
    n <= 0xFFFF_FFFF && length == n * (n + 2)
}

// Whether a text has the form, which has n lines if so.
pub fn string_form(text: &[u8], n: usize) -> bool
    requires { string_form text.now ≡ true → n ≡ line_count text.now }
    ensures { result ≡ string_form text.now }
{
    has_size(text.len(), n) && lines_fit(text, n)
}
