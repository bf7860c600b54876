// The calls on lists of generators and on texts of Pauli strings, as C sees them.
ghost use Rattle.calls.specs.Lists.{check_call, reduce_unused_call};
ghost use Rattle.calls.specs.Products.{product_call};
ghost use Rattle.calls.specs.Strings.{read_strings_call, write_strings_call};
ghost use Rattle.buffers.specs.Calls.{Call};

use buffers::refusals::number_of;

// Lines 2, 4, 5, 6, 9 and 10 of a generator list.
#[unsafe(no_mangle)]
pub extern "C" fn sukhlent_check(n: u64, signs: &[u8], z: &[u64], x: &[u64]) -> u8
    ensures { Call (check_call
        (record { n = n; signs = signs.now; z = z.now; x = x.now })) result }
{
    number_of(call_lists::check(n, signs, z, x))
}

// The reduced record of a generator list.
#[unsafe(no_mangle)]
pub extern "C" fn sukhlent_reduce(
    n: u64,
    signs: &[u8],
    z: &[u64],
    x: &[u64],
    neighbours: &mut [u64],
    codes: &mut [u8],
    used: &mut u64,
) -> u8
    ensures { Call (reduce_unused_call
        (record { n = n; signs = signs.now; z = z.now; x = x.now })
        neighbours.old codes.old used.old
        neighbours.new codes.new used.new) result }
{
    number_of(call_lists::reduce_unused(n, signs, z, x, neighbours, codes, used))
}

// The product of the rows that a word chooses, and the power of i in front of its letters.
#[unsafe(no_mangle)]
pub extern "C" fn sukhlent_product(
    n: u64,
    signs: &[u8],
    z: &[u64],
    x: &[u64],
    chosen: u64,
    product_z: &mut u64,
    product_x: &mut u64,
    phase: &mut u8,
) -> u8
    ensures { Call (product_call
        (record { n = n; signs = signs.now; z = z.now; x = x.now }) chosen
        product_z.old product_x.old phase.old
        product_z.new product_x.new phase.new) result }
{
    number_of(call_lists::product::product(n, signs, z, x, chosen, product_z, product_x, phase))
}

// The generator list of a text of Pauli strings.
#[unsafe(no_mangle)]
pub extern "C" fn sukhlent_read_strings(
    text: &[u8],
    signs: &mut [u8],
    z: &mut [u64],
    x: &mut [u64],
) -> u8
    ensures { Call (read_strings_call text.now
        signs.old z.old x.old
        signs.new z.new x.new) result }
{
    number_of(call_lists::strings::read_strings(text, signs, z, x))
}

// The text of a generator list as Pauli strings.
#[unsafe(no_mangle)]
pub extern "C" fn sukhlent_write_strings(
    n: u64,
    signs: &[u8],
    z: &[u64],
    x: &[u64],
    text: &mut [u8],
) -> u8
    ensures { Call (write_strings_call
        (record { n = n; signs = signs.now; z = z.now; x = x.now })
        text.old text.new) result }
{
    number_of(call_lists::strings::write_strings(n, signs, z, x, text))
}
