// Generators in rows of three words: z, x, and one that is odd for minus.
ghost use Rattle.std.specs.Prelude.{◌≡◌, ◌<◌, get_or};
ghost use Rattle.comparison.specs.internal.Setting.{generator_in, generators_in, no_generator};

use pauli::Generator;

// The row of a generator.
pub fn row_of(g: Generator) -> [u64; 3]
    ensures { generator_in result ≡ g }
{
    [g.z, g.x, u64::from(g.minus)]
}

// Generator j.
pub fn generator_at(rows: &[[u64; 3]; 64], j: usize) -> Generator
    requires { j < 64 }
    ensures { result ≡ get_or (generators_in rows.now) j no_generator }
{
    let row = rows[j];
    Generator {
        minus: row[2] % 2 == 1,
        z: row[0],
        x: row[1],
    }
}
