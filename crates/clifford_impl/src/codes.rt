// The 24 local Cliffords as codes: 4 × class + 2 × sx + sz. Composition is a table; images and inverses are worked out
// from the class and the signs.
ghost use Rattle.std.specs.Prelude.{◌≡◌, ℕ, ◌<◌, get_or};
ghost use Rattle.pauli.specs.Pauli.{minus};
ghost use Rattle.clifford.specs.Clifford.{bit_c, bit_d, class_of, clifford_of, code_of, image_x, image_z};
ghost use Rattle.clifford.specs.Clifford.{image, image_phase, inverse, then};

use crate::compositions::{entry, row};
use pauli::{Letter, letter_of, x_bit, z_bit};

// The letters to which X and Z go.
#[derive(Clone, Copy)]
pub struct ImageLetters {
    pub x: Letter,
    pub z: Letter,
}

// By class, from 0 to 5.
pub fn image_letters(class: u8) -> ImageLetters
    requires { class < 6 }
    ensures { (result.x ≡ image_x (class_of class)) × (result.z ≡ image_z (class_of class)) }
{
    let x = Letter::X;
    let y = Letter::Y;
    let z = Letter::Z;
    match class {
        0 => ImageLetters { x, z },
        1 => ImageLetters { x: y, z },
        2 => ImageLetters { x: z, z: x },
        3 => ImageLetters { x, z: y },
        4 => ImageLetters { x: y, z: x },
        _ => ImageLetters { x: z, z: y },
    }
}

// The letter to which a code sends a letter, bit by bit: the image of X where the letter has an X, times that of Z
// where it has a Z.
fn image_letter(index: u8, letter: Letter) -> Letter
    requires { index < 24 }
    ensures { result ≡ image (clifford_of index) letter }
{
    let ImageLetters { x: to_x, z: to_z } = image_letters(index / 4);
    let x = x_bit(letter);
    let z = z_bit(letter);
    letter_of(
        (x & z_bit(to_x)) != (z & z_bit(to_z)),
        (x & x_bit(to_x)) != (z & x_bit(to_z)),
    )
}

// Whether the image of a letter is negative. That of Y, i times the image of X times the image of Z, has both signs,
// and one more in classes 1 to 3: these exchange two letters, as XZ is -iY and YZ is iX.
fn image_minus(index: u8, letter: Letter) -> bool
    requires { index < 24 }
    ensures { minus result ≡ image_phase (clifford_of index) letter }
{
    let x = x_bit(letter);
    let z = z_bit(letter);
    let exchange = (4 <= index) & (index < 16);
    ((x & (index / 2 % 2 == 1)) != (z & (index % 2 == 1))) != (x & z & exchange)
}

// The image of a letter: a sign and a letter.
#[derive(Clone, Copy)]
pub struct SignedLetter {
    pub minus: bool,
    pub letter: Letter,
}

// A local Clifford, by its code.
#[derive(Clone, Copy)]
pub struct Code {
    pub index: u8,
}

impl Code {
    // First this code, then the next: the entry of the table.
    pub fn then(self, next: Code) -> Code
        requires { (self.index < 24) × (next.index < 24) }
        ensures index_value { result.index ≡ code_of (then (clifford_of self.index) (clifford_of next.index)) }
        ensures index_bound { result.index < 24 }
    {
        Code {
            index: entry(self.index, next.index),
        }
    }

    // This code and then each of the 24, the row of the table, for a loop that puts it before many.
    pub fn before_each(self) -> [u8; 24]
        requires { self.index < 24 }
        ensures { (b : ℕ) → b < 24
            → get_or result b 0 ≡ code_of (then (clifford_of self.index) (clifford_of b)) }
    {
        row(self.index)
    }

    // The code that undoes this one. Classes 4 and 5 undo each other, the others themselves; X and Z go back to the
    // letters from which they come, with the signs of these.
    pub fn inverse(self) -> Code
        requires { self.index < 24 }
        ensures { (result.index ≡ code_of (inverse (clifford_of self.index))) × (result.index < 24) }
    {
        let index = self.index;
        let class = index / 4;
        let back = 4 * (class ^ class / 4);
        let x = image_minus(index, image_letter(back, Letter::X));
        let z = image_minus(index, image_letter(back, Letter::Z));
        Code {
            index: back + 2 * (x as u8) + z as u8,
        }
    }

    // The image of a letter.
    pub fn image(self, letter: Letter) -> SignedLetter
        requires { self.index < 24 }
        ensures letter_value { result.letter ≡ image (clifford_of self.index) letter }
        ensures minus_value { minus result.minus ≡ image_phase (clifford_of self.index) letter }
    {
        let index = self.index;
        SignedLetter {
            minus: image_minus(index, letter),
            letter: image_letter(index, letter),
        }
    }

    // The bit C: whether the image of Z is X or Y.
    pub fn c_bit(self) -> bool
        requires { self.index < 24 }
        ensures { result ≡ bit_c (clifford_of self.index) }
    {
        x_bit(image_letters(self.index / 4).z)
    }

    // The bit D: whether the image of X is X or Y.
    pub fn d_bit(self) -> bool
        requires { self.index < 24 }
        ensures { result ≡ bit_d (clifford_of self.index) }
    {
        x_bit(image_letters(self.index / 4).x)
    }
}
