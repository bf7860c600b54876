// The generator of jobs: what the demands say of it.
ghost use Rattle.claims.specs.Sentences.Generator.{GenerateSays};

use crate::generator::sukhlent_generate;

pub fn generate_says(n: u64, count: u64, seed: u64, text: &mut [u8], length: &mut u64) -> u8
    ensures { GenerateSays
        n count seed text.old length.old
        text.new length.new result }
{
    sukhlent_generate(n, count, seed, text, length)
}
