// The orbit of a graph: what the demands say of it.
ghost use Rattle.claims.specs.Sentences.Orbits.{OrbitSays};

use crate::orbit_lists::sukhlent_orbit;

pub fn orbit_says(n: u64, neighbours: &[u64], list: &mut [u16], count: &mut u64) -> u8
    ensures { OrbitSays
        n neighbours.now list.old count.old
        list.new count.new result }
{
    sukhlent_orbit(n, neighbours, list, count)
}
