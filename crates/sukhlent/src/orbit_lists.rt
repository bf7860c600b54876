// The orbit of a graph, as C sees it.
ghost use Rattle.calls.specs.Orbits.{orbit_call};
ghost use Rattle.buffers.specs.Calls.{Call};

use buffers::refusals::number_of;

// The numbers of all graphs that complementations reach from one on up to 6 vertices, rising, and how many there are.
#[unsafe(no_mangle)]
pub extern "C" fn sukhlent_orbit(
    n: u64,
    neighbours: &[u64],
    list: &mut [u16],
    count: &mut u64,
) -> u8
    ensures { Call (orbit_call n neighbours.now list.old count.old
        list.new count.new) result }
{
    number_of(call_readings::orbit_lists::orbit(n, neighbours, list, count))
}
