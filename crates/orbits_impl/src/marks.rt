// The orbit of a graph on up to 6 vertices: the graphs found are marked, followed in the order in which they were found,
// and written by number.
ghost use Rattle.std.specs.Prelude.{◌≡◌, ◌<◌, ◌≤◌, length};
ghost use Rattle.buffers.specs.Buffers.{written};
ghost use Rattle.orbits.specs.Numbers.{graph_count};
ghost use Rattle.orbits.specs.Orbits.{orbit_list};

use crate::search::spread;
use crate::writing::write_marked;

// The numbers of the orbit of graph g, rising, at the start of the list. Returns how many there are.
pub fn write_orbit(n: usize, g: u64, list: &mut [u16]) -> usize
    requires { (1 ≤ n) × (n ≤ 6) × (g < graph_count n) × (length list.old ≡ 32768) }
    ensures { (list.new ≡ written (orbit_list n g) list.old)
        × (result ≡ length (orbit_list n g)) }
{
    let mut marks = [0u64; 512];
    spread(n, g, &mut marks, list);
    write_marked(&marks, list)
}
