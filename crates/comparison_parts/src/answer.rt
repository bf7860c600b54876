// The comparison of two reduced records: the least choice, the complementation list and its count.
ghost use Rattle.buffers.specs.internal.Numbers.{number_of};
ghost use Rattle.std.specs.Prelude.{◌&&◌, ◌||◌, ◌≡◌, ℕ, ◌≤◌, length};
ghost use Rattle.buffers.specs.Buffers.{tabulate};
ghost use Rattle.comparison.specs.internal.Compared.{induced_code};
ghost use Rattle.comparison.specs.internal.Setting.{Codes};
ghost use Rattle.image_impl.specs.internal.Answer.{IsImageList};
ghost use Rattle.record.specs.Graph.{Simple};
ghost use Rattle.record.specs.NeighbourWords.{graph_in};
ghost use Rattle.comparison.specs.Parts.{part_above};
ghost use Rattle.pauli.specs.Pauli.{Pauli};
ghost use Rattle.record.specs.Accepted.{AcceptedRecord};
ghost use Rattle.record.specs.Lent.{held_record, lent_record};
ghost use Rattle.comparison.specs.internal.ComparedPairs.{HoldsReduced, PairAnswered};

use crate::compare_parts;
use crate::sets::part_above;
use buffers::refusals::Refusal;
use buffers::{copy_first, copy_front};
use comparison_search::induced::induced_codes;
use image_impl::answer::image_list;

// Whether there is a limit of 20 vertices for each part, and a part of either graph has more.
fn too_large(limited: bool, neighbours: &[u64], neighbours2: &[u64]) -> bool
    requires neighbours_len_bound { (length neighbours.now ≤ 64) × Simple (length neighbours.now) (graph_in neighbours.now) }
    requires neighbours2_len_bound { (length neighbours2.now ≤ 64) × Simple (length neighbours2.now) (graph_in neighbours2.now) }
    ensures { result ≡ (limited && (part_above 20 (length neighbours.now)
        (graph_in neighbours.now)
        || part_above 20 (length neighbours2.now) (graph_in neighbours2.now))) }
{
    limited && (part_above(neighbours) || part_above(neighbours2))
}

// The list of the image rule on the first record's graph, under the codes that the choice induces between two records;
// with room for these codes. Returns how many vertices are on it.
fn induced_image(
    n: usize,
    neighbours: &[u64],
    codes: &[u8],
    choice: &[u8],
    codes2: &[u8],
    induced: &mut [u8],
    list: &mut [u8],
) -> usize
    requires accepted_record { AcceptedRecord (lent_record n neighbours.now codes.now) }
    requires choice_len { (length choice.now ≡ n) × (length codes2.now ≡ n) × (length induced.old ≡ n)
        × (length list.old ≡ 96) }
    requires codes { Codes choice.now × Codes codes2.now }
    ensures { IsImageList n (held_record (record {
      n = n;
      neighbours = neighbours.now;
      codes = tabulate n (induced_code codes.now choice.now codes2.now);
    })) list.new result }
{
    induced_codes(codes, choice, codes2, induced);
    image_list(n, neighbours, induced, list)
}

// The comparison of two reduced records: refused where there is a limit and a part of either has more than 20 vertices,
// or where no choice works; else the least choice, the complementation list and its count.
pub fn compare_reduced(
    limited: bool,
    n: usize,
    neighbours: &[u64],
    codes: &[u8],
    neighbours2: &[u64],
    codes2: &[u8],
    choice: &mut [u8],
    list: &mut [u8],
    count: &mut u64,
) -> Result<(), Refusal>
    requires accepted_record { AcceptedRecord (lent_record n neighbours.now codes.now) }
    requires accepted_record_2 { AcceptedRecord (lent_record n neighbours2.now codes2.now) }
    requires choice_len { (length choice.old ≡ n) × (length list.old ≡ 96) }
    ensures { (R S : ℕ → Pauli) → HoldsReduced n R neighbours.now codes.now
        → HoldsReduced n S neighbours2.now codes2.now
        → PairAnswered limited n R S choice.old list.old count.old (number_of result) choice.new
        list.new count.new }
{
    if too_large(limited, neighbours, neighbours2) {
        return Err(Refusal::Large);
    }
    let least = compare_parts(n, neighbours, codes, neighbours2, codes2).ok_or(
        Refusal::Inequivalent,
    )?;
    copy_first(&least, choice);
    let mut induced = [0u8; 64];
    let mut vertices = [0u8; 96];
    let listed = induced_image(
        n,
        neighbours,
        codes,
        choice,
        codes2,
        &mut induced[..n],
        &mut vertices,
    );
    copy_front(&vertices[..listed], list);
    *count = listed as u64;
    Ok(())
}
