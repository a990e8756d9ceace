// Where the pages of a log stand, and the pages that wait for a commit.
ghost use Rattle.std.specs.Prelude.{◌≡◌, ◌⊎◌, ℕ, List, ◌+◌, ◌*◌, ◌^◌, ◌-◌, ◌<◌, ◌≤◌, ◌++◌, min, length, drop, true, false, All, Some, None, IsSome, IfSome, IfNone};
ghost use Rattle.std.specs.BTreeMap.{get, keys, values, btree_map_len};
ghost use Rattle.std.specs.Ordering.{nat_cmp};
ghost use Rattle.nx_numbers.specs.Sizes.{entry_size};
ghost use Rattle.nx_replay.specs.Log.{entry_bytes};
ghost use Rattle.nx_wal.specs.Places.{page_at_place, Notes, AreWithin, MayWait, IsWholePage};
ghost use Rattle.nx_wal.specs.Writing.{entries_of};

use crate::PageBytes;
use nx_numbers::ENTRY_SIZE;
use std::collections::BTreeMap;

// The place of a page in the log.
pub(crate) fn place_of(places: &BTreeMap<u32, Option<u64>>, page: u32) -> Option<u64>
    ensures some { IfSome result (λ at. get nat_cmp places.now page ≡ Some (Some at)) }
    ensures none { IfNone result ((at : ℕ) → get nat_cmp places.now page ≡ Some (Some at) → ⊥) }
{
    match places.get(&page) {
        Some(Some(at)) => Some(*at),
        _ => None,
    }
}

// Makes an entry for a page that is to wait, where it has none.
pub(crate) fn make_place(places: &mut BTreeMap<u32, Option<u64>>, page: u32) -> bool
    ensures leads { (q : ℕ) (log : List ℕ) → page_at_place (get nat_cmp places.new q) log ≡ page_at_place (get nat_cmp places.old q) log }
    ensures within { (limit : ℕ) → AreWithin limit places.old → AreWithin limit places.new }
    ensures made { result ≡ true → IsSome (get nat_cmp places.new page) }
    ensures keeps { (q : ℕ) → IsSome (get nat_cmp places.old q) → IsSome (get nat_cmp places.new q) }
{
    if places.contains_key(&page) {
        return true;
    }
    let Ok(_) = places.insert(page, None) else {
        return false;
    };
    true
}

// Notes where the pages that waited stand now, each behind its number, from an offset on. Each has
// an entry, so that this takes no memory.
pub(crate) fn set_places(
    places: &mut BTreeMap<u32, Option<u64>>,
    waiting: &BTreeMap<u32, Box<PageBytes>>,
    at: u64,
)
    requires numbers { All (MayWait places.old) (keys waiting.now) }
    requires whole { All IsWholePage (values waiting.now) }
    requires low { at + entry_size * btree_map_len waiting.now ≤ 2 ^ 63 }
    ensures notes { (log rest : List ℕ) → drop at log ≡ entry_bytes (entries_of waiting.now.entries) ++ rest → Notes (entries_of waiting.now.entries) log places.old places.new }
    ensures within { (limit : ℕ) → at + entry_size * btree_map_len waiting.now ≤ limit → AreWithin limit places.old → AreWithin limit places.new }
    ensures keeps { (q : ℕ) → IsSome (get nat_cmp places.old q) → IsSome (get nat_cmp places.new q) }
{
    let mut place = at;
    for (page, _) in waiting.iter() {
        match places.insert(*page, Some(place + 4)) {
            Ok(_) => place += ENTRY_SIZE as u64,
            Err(_) => unreachable!(),
        }
    }
}

// One more than this number, where a page stands there, or the count so far if that is more.
fn count_with(count: u32, page: u32, place: &Option<u64>) -> u32
    ensures least { count ≤ result }
    ensures some { (at : ℕ) → place.now ≡ Some at → min (page + 1) 4294967295 ≤ result }
    ensures last { (result ≡ count) ⊎ (result ≡ min (page + 1) 4294967295) × ((at : ℕ) × (place.now ≡ Some at)) }
{
    if place.is_none() {
        return count;
    }
    count.max(page.saturating_add(1))
}

// One more than the greatest number of a page that stands in the log, 0 where none does.
pub(crate) fn logged_count(places: &BTreeMap<u32, Option<u64>>) -> u32
    ensures above { (p at : ℕ) → get nat_cmp places.now p ≡ Some (Some at) → min (p + 1) 4294967295 ≤ result }
    ensures last { 0 < result → (p : ℕ) × (at : ℕ) × (get nat_cmp places.now p ≡ Some (Some at)) × (result ≡ min (p + 1) 4294967295) }
{
    let mut count = 0;
    for (page, place) in places.iter() {
        count = count_with(count, *page, place);
    }
    count
}
