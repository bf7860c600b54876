// The public call that lists the orbit of a graph under local complementation.
ghost use Rattle.buffers.specs.internal.Numbers.{number_of};
ghost use Rattle.std.specs.Prelude.{◌≡◌};
ghost use Rattle.buffers.specs.Refusals.{first_fitting};
ghost use Rattle.buffers.specs.Calls.{Call};
ghost use Rattle.calls.specs.Orbits.{orbit_call, orbit_lines};

use buffers::refusals::Refusal;
use buffers::strays;
use orbits_impl::marks::write_orbit;
use orbits_impl::numbers::graph_number;
use record_impl::checks::not_simple;

// The first line that holds; `Ok` where none does.
fn orbit_refusal(n: u64, neighbours: &[u64], list: &[u16]) -> Result<(), Refusal>
    ensures { number_of result ≡ first_fitting (orbit_lines n neighbours.now list.now) }
{
    if (n == 0) | (6 < n) {
        return Err(Refusal::Count);
    }
    let vertices = n as usize;
    if (neighbours.len() != vertices) | (list.len() != 32768) {
        return Err(Refusal::Length);
    }
    if strays(neighbours, vertices) {
        return Err(Refusal::Stray);
    }
    if not_simple(vertices, neighbours) {
        return Err(Refusal::Graph);
    }
    Ok(())
}

// The numbers of all graphs that complementations reach from one, at the start of the list, and how many there are.
pub fn orbit(n: u64, neighbours: &[u64], list: &mut [u16], count: &mut u64) -> Result<(), Refusal>
    ensures { Call (orbit_call n neighbours.now list.old count.old
        list.new count.new) (number_of result) }
{
    orbit_refusal(n, neighbours, list)?;
    let vertices = n as usize;
    let start = graph_number(vertices, neighbours);
    *count = write_orbit(vertices, start, list) as u64;
    Ok(())
}
