// The calls on lists of generators and on texts of Pauli strings: what the demands say of each.
ghost use Rattle.claims.specs.Sentences.Lists.{CheckSays, ProductSays};
ghost use Rattle.claims.specs.Sentences.Lists.{ReadStringsSays, ReduceSays, WriteStringsSays};

use crate::lists::{
    sukhlent_check, sukhlent_product, sukhlent_read_strings, sukhlent_reduce,
    sukhlent_write_strings,
};

pub fn check_says(n: u64, signs: &[u8], z: &[u64], x: &[u64]) -> u8
    ensures { CheckSays
        (record { n = n; signs = signs.now; z = z.now; x = x.now }) result }
{
    sukhlent_check(n, signs, z, x)
}

pub fn reduce_says(
    n: u64,
    signs: &[u8],
    z: &[u64],
    x: &[u64],
    neighbours: &mut [u64],
    codes: &mut [u8],
    used: &mut u64,
) -> u8
    ensures { ReduceSays
        (record { n = n; signs = signs.now; z = z.now; x = x.now })
        neighbours.old codes.old used.old
        neighbours.new codes.new used.new result }
{
    sukhlent_reduce(n, signs, z, x, neighbours, codes, used)
}

pub fn product_says(
    n: u64,
    signs: &[u8],
    z: &[u64],
    x: &[u64],
    chosen: u64,
    product_z: &mut u64,
    product_x: &mut u64,
    phase: &mut u8,
) -> u8
    ensures { ProductSays
        (record { n = n; signs = signs.now; z = z.now; x = x.now })
        chosen product_z.old product_x.old phase.old
        product_z.new product_x.new phase.new result }
{
    sukhlent_product(n, signs, z, x, chosen, product_z, product_x, phase)
}

pub fn read_strings_says(text: &[u8], signs: &mut [u8], z: &mut [u64], x: &mut [u64]) -> u8
    ensures { ReadStringsSays text.now
        signs.old z.old x.old
        signs.new z.new x.new result }
{
    sukhlent_read_strings(text, signs, z, x)
}

pub fn write_strings_says(n: u64, signs: &[u8], z: &[u64], x: &[u64], text: &mut [u8]) -> u8
    ensures { WriteStringsSays
        (record { n = n; signs = signs.now; z = z.now; x = x.now })
        text.old text.new result }
{
    sukhlent_write_strings(n, signs, z, x, text)
}
