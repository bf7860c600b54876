// The calls on records: what the demands say of each.
ghost use Rattle.claims.specs.Sentences.Records.{ComplementSays, CutSays, CzSays, ExpandSays};
ghost use Rattle.claims.specs.Sentences.Records.{GateSays, ImageSays, MeasureSays};
ghost use Rattle.record.specs.Lent.{lent_record};
ghost use Rattle.operations.specs.Used.{used_record};

use crate::records::{
    sukhlent_complement, sukhlent_cut, sukhlent_cz, sukhlent_expand, sukhlent_gate, sukhlent_image,
    sukhlent_measure,
};

pub fn expand_says(
    n: u64,
    neighbours: &[u64],
    codes: &[u8],
    used: u64,
    signs: &mut [u8],
    z: &mut [u64],
    x: &mut [u64],
) -> u8
    ensures { ExpandSays
        (used_record n neighbours.now codes.now used)
        signs.old z.old x.old
        signs.new z.new x.new result }
{
    sukhlent_expand(n, neighbours, codes, used, signs, z, x)
}

pub fn gate_says(
    n: u64,
    neighbours: &mut [u64],
    codes: &mut [u8],
    used: u64,
    qubit: u64,
    code: u8,
) -> u8
    ensures { GateSays
        (used_record n neighbours.old codes.old used)
        qubit code neighbours.new codes.new result }
{
    sukhlent_gate(n, neighbours, codes, used, qubit, code)
}

pub fn cz_says(n: u64, neighbours: &mut [u64], codes: &mut [u8], used: u64, a: u64, b: u64) -> u8
    ensures { CzSays
        (used_record n neighbours.old codes.old used)
        a b neighbours.new codes.new result }
{
    sukhlent_cz(n, neighbours, codes, used, a, b)
}

pub fn measure_says(
    n: u64,
    neighbours: &mut [u64],
    codes: &mut [u8],
    used: &mut u64,
    pauli: u8,
    qubit: u64,
    outcome: u8,
    answer: &mut u8,
    determined: &mut u8,
) -> u8
    ensures { MeasureSays
        (used_record n neighbours.old codes.old used.old)
        pauli qubit outcome answer.old determined.old
        neighbours.new codes.new used.new answer.new
        determined.new result }
{
    sukhlent_measure(
        n, neighbours, codes, used, pauli, qubit, outcome, answer, determined,
    )
}

pub fn complement_says(n: u64, neighbours: &mut [u64], codes: &mut [u8], used: u64, a: u64) -> u8
    ensures { ComplementSays
        (used_record n neighbours.old codes.old used)
        a neighbours.new codes.new result }
{
    sukhlent_complement(n, neighbours, codes, used, a)
}

pub fn image_says(
    n: u64,
    neighbours: &[u64],
    codes: &[u8],
    image: &mut [u64],
    signs: &mut [u8],
    list: &mut [u8],
    count: &mut u64,
) -> u8
    ensures { ImageSays
        (lent_record n neighbours.now codes.now)
        image.old signs.old list.old count.old
        image.new signs.new list.new count.new result }
{
    sukhlent_image(n, neighbours, codes, image, signs, list, count)
}

pub fn cut_says(
    n: u64,
    neighbours: &[u64],
    codes: &[u8],
    used: u64,
    side: u64,
    rank: &mut u64,
) -> u8
    ensures { CutSays
        (used_record n neighbours.now codes.now used)
        side rank.old rank.new result }
{
    sukhlent_cut(n, neighbours, codes, used, side, rank)
}
