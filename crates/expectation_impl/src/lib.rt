// The value of a Pauli row on a record in its buffers: the row is sent back through the codes, and the element of the
// graph's group with its x bits stands beside it.
#![tactic(auto)]

ghost use Rattle.std.specs.Prelude.{false, ◌≡◌, ℕ, ◌<◌, ◌≤◌, ◌^◌, get_or, length};
ghost use Rattle.clifford.specs.Clifford.{inverse};
ghost use Rattle.clifford.specs.Vectors.{act, codes_of};
ghost use Rattle.expectation.specs.internal.Reading.{read_value};
ghost use Rattle.expectation.specs.Values.{stabilizer_value};
ghost use Rattle.expectation_impl.specs.internal.ValueNumbers.{value_number};
ghost use Rattle.record.specs.Graph.{Simple, graph_generator};
ghost use Rattle.record.specs.NeighbourWords.{graph_in};
ghost use Rattle.pauli.specs.Pauli.{signed_row};
ghost use Rattle.pauli.specs.internal.Rows.{generator_of, pauli_of};
ghost use Rattle.record.specs.Accepted.{AcceptedRecord};
ghost use Rattle.record.specs.Lent.{held_rows, lent_record};
ghost use Rattle.stabilizer.specs.Groups.{product};
ghost use Rattle.words.specs.Bits.{bit};

use clifford_impl::rows::{act_on, action_of, undoing};
use pauli::{Generator, Row};
use words::{has, single};

// A row with each place sent back through its own code.
fn send_back(g: Generator, codes: &[u8]) -> Generator
    requires { (length codes.now ≤ 64) × ((q : ℕ) → get_or codes.now q 0 < 24) }
    ensures { generator_of result ≡ act 64 (λ q. inverse (codes_of codes.now q)) (generator_of g) }
{
    let by = action_of(codes);
    let back = undoing(by);
    act_on(g, back)
}

// The element of a graph's group with these x bits: the product of the generators that they name, in index order.
fn graph_element(neighbours: &[u64], chosen: u64) -> Row
    requires { (length neighbours.now ≤ 64) × Simple (length neighbours.now) (graph_in neighbours.now) }
    ensures { (pauli_of result ≡ product (length neighbours.now) (length neighbours.now)
        (bit chosen) (graph_generator (graph_in neighbours.now))) × (result.phase < 4) }
{
    let mut element = Row {
        phase: 0,
        z: 0,
        x: 0,
    };
    for (j, &word) in neighbours.iter().enumerate() {
        if has(chosen, j) {
            let generator = Row {
                phase: 0,
                z: word,
                x: single(j),
            };
            element = element.times(generator);
        }
    }
    element
}

// The element beside the row that was sent back: whether their signs differ, where their letters are the same.
fn read(element: Row, row: Generator) -> Option<bool>
    ensures { value_number result ≡ read_value element row }
{
    if element.z != row.z {
        return None;
    }
    Some((element.phase == 2) != row.minus)
}

// The value of the row with these two words, sign plus: whether it is minus, where the row or its negative is in the
// group.
pub fn row_value(n: usize, neighbours: &[u64], codes: &[u8], z: u64, x: u64) -> Option<bool>
    requires accepted_record { AcceptedRecord (lent_record n neighbours.now codes.now) }
    requires z_bound { (z < 2 ^ n) × (x < 2 ^ n) }
    ensures { value_number result ≡ stabilizer_value n (held_rows (lent_record n neighbours.now codes.now))
        (signed_row false z x) }
{
    let plus = Generator { minus: false, z, x };
    let row = send_back(plus, codes);
    let chosen = row.x;
    read(graph_element(neighbours, chosen), row)
}

// The number that a call answers for a value.
pub fn value_number(value: Option<bool>) -> u8
    ensures { result ≡ value_number value }
{
    match value {
        Some(minus) => u8::from(minus),
        None => 2,
    }
}
