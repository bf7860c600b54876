// The places of a store by their heads: which holds a name, which is free, which a save takes.
ghost use Rattle.std.specs.Option.{IfSome};
ghost use Rattle.std.specs.Prelude.{not, ◌≡◌, ◌<◌, ◌≤◌, get_or, unwrap_or};
ghost use Rattle.store.specs.Kept.{save_place};
ghost use Rattle.store.specs.Places.{free_place, has_name, is_held, place_of};

// A word of the heads; 0 past their end.
pub fn word_at(heads: &[u64], at: usize) -> u64
    ensures { result ≡ get_or heads.now at 0 }
{
    heads.get(at).copied().unwrap_or(0)
}

// Whether place i is free.
fn is_free(heads: &[u64], i: usize) -> bool
    requires { i ≤ 8 }
    ensures { result ≡ not (is_held heads.now i) }
{
    word_at(heads, 3 * i) == 0
}

// Whether place i holds a record under the name.
fn has_name(heads: &[u64], name: u64, i: usize) -> bool
    requires { i ≤ 8 }
    ensures { result ≡ has_name heads.now name i }
{
    (word_at(heads, 3 * i) != 0) & (word_at(heads, 3 * i + 1) == name)
}

// The place, of the first k, that holds a record under the name; `None` where none does.
pub fn find(k: usize, heads: &[u64], name: u64) -> Option<usize>
    requires { k ≤ 8 }
    ensures place { unwrap_or result k ≡ place_of k heads.now name }
    ensures within { IfSome result (λ i. i < k) }
{
    for i in 0..k {
        if has_name(heads, name, i) {
            return Some(i);
        }
    }
    None
}

// The smallest free place of the first k; `None` where all are held.
fn free(k: usize, heads: &[u64]) -> Option<usize>
    requires { k ≤ 8 }
    ensures place { unwrap_or result k ≡ free_place k heads.now }
    ensures within { IfSome result (λ i. i < k) }
{
    for i in 0..k {
        if is_free(heads, i) {
            return Some(i);
        }
    }
    None
}

// The place that a save takes: that of the name, else the smallest free one; `None` where neither is there.
pub fn place_for(k: usize, heads: &[u64], name: u64) -> Option<usize>
    requires { k ≤ 8 }
    ensures place { unwrap_or result k ≡ save_place k heads.now name }
    ensures within { IfSome result (λ i. i < k) }
{
    find(k, heads, name).or_else(|| free(k, heads))
}
