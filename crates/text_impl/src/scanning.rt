// What the scan of a generator list's text does with each byte.
ghost use Rattle.std.specs.Prelude.{◌≡◌, ◌+◌, ◌<◌, cond, eqb, ltb, IfSome};
ghost use Rattle.std.specs.Option.{unwrap_or};
ghost use Rattle.text.specs.Text.{hex_value};
ghost use Rattle.text.specs.declared.scan.Place.TheVariants.{Broken};
ghost use Rattle.text.specs.internal.Scan.{push, names_step, sign_step, z_step, x_step, scan_byte};

use text::scan::{Place, Scan};

// The digits of a word.
const DIGITS: usize = 16;

// The names line.
const NAMES: [u8; 9] = *b"sign z x\n";

// The value of a lower-case hexadecimal digit, where the byte is one.
#[tactic(auto, unfolding(text::specs::Text::hex_value))]
pub fn hex_value(b: u8) -> Option<u8>
    ensures value { unwrap_or result 16 ≡ hex_value b }
    ensures below { IfSome result (λ d. d < 16) }
{
    match b {
        b'0'..=b'9' => Some(b - b'0'),
        b'a'..=b'f' => Some(b - b'a' + 10),
        _ => None,
    }
}

// A word with one more digit at its low end.
#[tactic(auto, unfolding(text::specs::internal::Scan::push))]
pub fn pushed(w: u64, d: u8) -> u64
    requires { d < 16 }
    ensures { result ≡ push w d }
{
    (w << 4) + d as u64
}

#[tactic(auto, unfolding(text::specs::internal::Scan::names_step))]
fn names_step(k: usize, b: u8) -> Place
    ensures { result ≡ names_step k b }
{
    if 9 <= k {
        return Place::Broken;
    }
    if b != NAMES[k] {
        return Place::Broken;
    }
    if k == 8 {
        return Place::Sign;
    }
    Place::Names(k + 1)
}

#[tactic(auto, unfolding(text::specs::internal::Scan::sign_step))]
fn sign_step(s: Scan, b: u8) -> Scan
    ensures { result ≡ sign_step s b }
{
    match b {
        b'0'..=b'9' => Scan {
            place: Place::Space,
            sign: b - b'0',
            z: 0,
            x: 0,
            ..s
        },
        _ => Scan {
            place: Place::Broken,
            ..s
        },
    }
}

// Where a space must follow.
fn behind_space(b: u8, place: Place) -> Place
    ensures { result ≡ cond (eqb b 32) place Broken }
{
    if b == b' ' { place } else { Place::Broken }
}

#[tactic(auto, unfolding(text::specs::internal::Scan::z_step))]
fn z_step(k: usize, s: Scan, b: u8) -> Scan
    ensures { result ≡ z_step k s b }
{
    if DIGITS <= k {
        return Scan {
            place: behind_space(b, Place::X(0)),
            ..s
        };
    }
    let Some(d) = hex_value(b) else {
        return Scan {
            place: Place::Broken,
            ..s
        };
    };
    Scan {
        place: Place::Z(k + 1),
        z: pushed(s.z, d),
        ..s
    }
}

// One more, of which no more than LIMIT are counted.
pub fn one_more<const LIMIT: usize>(n: usize) -> usize
    ensures { result ≡ cond (ltb n LIMIT) (n + 1) n }
{
    if n < LIMIT { n + 1 } else { n }
}

#[tactic(auto, unfolding(text::specs::internal::Scan::x_step, text::specs::internal::Scan::one_more))]
fn x_step(k: usize, s: Scan, b: u8) -> Scan
    ensures { result ≡ x_step k s b }
{
    if DIGITS <= k {
        if b == b'\n' {
            return Scan {
                place: Place::Sign,
                count: one_more::<65>(s.count),
                ..s
            };
        }
        return Scan {
            place: Place::Broken,
            ..s
        };
    }
    let Some(d) = hex_value(b) else {
        return Scan {
            place: Place::Broken,
            ..s
        };
    };
    Scan {
        place: Place::X(k + 1),
        x: pushed(s.x, d),
        ..s
    }
}

// The scan after one more byte.
#[tactic(auto, unfolding(text::specs::internal::Scan::scan_byte))]
pub fn scan_byte(s: Scan, b: u8) -> Scan
    ensures { result ≡ scan_byte s b }
{
    match s.place {
        Place::Names(k) => Scan {
            place: names_step(k, b),
            ..s
        },
        Place::Sign => sign_step(s, b),
        Place::Space => Scan {
            place: behind_space(b, Place::Z(0)),
            ..s
        },
        Place::Z(k) => z_step(k, s, b),
        Place::X(k) => x_step(k, s, b),
        Place::Broken => s,
    }
}
