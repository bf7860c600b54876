// Reads the decimal fields of a job text, digit by digit.
ghost use Rattle.std.specs.Prelude.{◌≡◌, ◌<◌, IfSome};
ghost use Rattle.std.specs.Option.{unwrap_or};
ghost use Rattle.jobs.specs.internal.Scan.{digit_value, first_step, separator, ended, more_step};

use jobs::scan::{Field, Place, Scan};
use text_impl::scanning::one_more;

// The value of a decimal digit, where the byte is one.
#[tactic(auto, unfolding(jobs::specs::internal::Scan::digit_value))]
fn digit_value(b: u8) -> Option<u8>
    ensures value { unwrap_or result 10 ≡ digit_value b }
    ensures below { IfSome result (λ d. d < 10) }
{
    match b {
        b'0'..=b'9' => Some(b - b'0'),
        _ => None,
    }
}

// At the first digit of a field.
#[tactic(auto, unfolding(jobs::specs::internal::Scan::first_step))]
pub fn first_step(f: Field, s: Scan, b: u8) -> Scan
    ensures { result ≡ first_step f s b }
{
    match digit_value(b) {
        Some(d) => Scan {
            place: Place::More(f),
            number: u16::from(d),
            ..s
        },
        None => Scan {
            place: Place::Broken,
            ..s
        },
    }
}

fn separator_of(f: Field) -> u8
    ensures { result ≡ separator f }
{
    match f {
        Field::N | Field::Value => b'\n',
        Field::A | Field::B => b' ',
    }
}

// A field has ended.
#[tactic(auto, unfolding(jobs::specs::internal::Scan::one_more))]
fn field_end(f: Field, s: Scan) -> Scan
    ensures { result ≡ ended f s }
{
    match f {
        Field::N => Scan {
            place: Place::Head(7),
            n: s.number,
            ..s
        },
        Field::A => Scan {
            place: Place::First(Field::B),
            a: s.number,
            ..s
        },
        Field::B => Scan {
            place: Place::First(Field::Value),
            b: s.number,
            ..s
        },
        Field::Value => Scan {
            place: Place::Word(0),
            count: one_more::<4097>(s.count),
            ..s
        },
    }
}

// After a digit of a field.
#[tactic(auto, unfolding(jobs::specs::internal::Scan::more_step))]
pub fn more_step(f: Field, s: Scan, b: u8) -> Scan
    ensures { result ≡ more_step f s b }
{
    match digit_value(b) {
        Some(d) if 0 < s.number && s.number < 100 => Scan {
            place: Place::More(f),
            number: s.number * 10 + u16::from(d),
            ..s
        },
        None if b == separator_of(f) => field_end(f, s),
        _ => Scan {
            place: Place::Broken,
            ..s
        },
    }
}
