// The least choice of one part, on its record in its own numbers, and its codes placed at its vertices.
ghost use Rattle.std.specs.Prelude.{[], ◌≡◌, ℕ, ◌<◌, ◌≤◌, get_or, is_some, length, unwrap_or};
ghost use Rattle.comparison.specs.internal.Equations.{EmptyFrom, equations_in};
ghost use Rattle.comparison_parts.specs.internal.Components.{NumberedPair, PartAnswer};

use crate::part_records::extract;
use comparison_search::search_records;

// The least choice of a part, with room for its two records, by a table without equations, which it leaves so.
pub fn compare_listed(
    table: &mut [[u64; 4]; 256],
    n: usize,
    neighbours: &[u64],
    codes: &[u8],
    neighbours2: &[u64],
    codes2: &[u8],
    component: u64,
    at: &[u8],
    words: &mut [u64],
    numbers: &mut [u8],
    words2: &mut [u64],
    numbers2: &mut [u8],
) -> Option<[u8; 64]>
    requires numbered_pair { NumberedPair n neighbours.now codes.now neighbours2.now codes2.now component
        (length at.now) at.now }
    requires words_len { (length words.old ≡ length at.now) × (length numbers.old ≡ length at.now) }
    requires words2_len { (length words2.old ≡ length at.now) × (length numbers2.old ≡ length at.now) }
    requires empty_from { EmptyFrom 0 (equations_in table.old) }
    ensures part_answer { PartAnswer n neighbours.now codes.now neighbours2.now
        codes2.now (length at.now) at.now (is_some result) (unwrap_or result []) }
    ensures empty_from_2 { EmptyFrom 0 (equations_in table.new) }
{
    extract(neighbours, codes, at, words, numbers);
    extract(neighbours2, codes2, at, words2, numbers2);
    search_records(table, at.len(), words, numbers, words2, numbers2)
}

// Puts the codes of a part at its vertices.
pub fn place(at: &[u8], chosen: &[u8; 64], choice: &mut [u8; 64])
    requires { (length at.now ≤ 64) × ((i : ℕ) → i < length at.now → get_or at.now i 0 < 64)
        × ((i j : ℕ) → i < j → j < length at.now → get_or at.now i 0 < get_or at.now j 0) }
    ensures { ((i : ℕ) → i < length at.now → get_or choice.new (get_or at.now i 0) 0 ≡ get_or chosen.now i 0)
        × ((q : ℕ) → ((i : ℕ) → i < length at.now → get_or at.now i 0 ≡ q → ⊥)
        → get_or choice.new q 0 ≡ get_or choice.old q 0) }
{
    for (i, &v) in at.iter().enumerate() {
        choice[v as usize] = chosen[i];
    }
}
