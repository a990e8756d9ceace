// What a walk has come to: pages, and records of slotted pages.
ghost use Rattle.std.specs.Prelude.{◌≡◌, ◌≢◌, ℕ, List, [], ◌∷◌, ◌++◌, true, false, Some, IfOk, OnOk, Contains};
ghost use Rattle.nx_slots.specs.Slots.{IsSlotted, slots_of};
ghost use Rattle.nx_replay.specs.Log.{Pages};
ghost use Rattle.nx_layouts.specs.Layout.{RecordPlace};
ghost use Rattle.nx_rules.specs.Walked.{IsRecordAt};
ghost use Rattle.nx_check.specs.Uses.{use_of};
ghost use Rattle.nx_check.specs.Marks.{AreMarked, HasUse};

use crate::left::{Left, slot_count};
use crate::uses::{PageUse, Uses};
use nx_lists::NoMemory;
use nx_slots::PageBytes;

// Reaches a record of a slotted page with these bytes, and says whether it wasn't reached before.
pub fn reach(
    uses: &mut Uses,
    left: &mut Left,
    page: u32,
    slot: u16,
    bytes: &PageBytes,
) -> Result<bool, NoMemory>
    requires { IsSlotted bytes.now.bytes }
    ensures new { IfOk result (λ found. found ≡ true → (pages : Pages) (free used : List ℕ) (reached : List RecordPlace) (record_bytes : List ℕ) → AreMarked uses.old left.old pages free used reached → pages page ≡ Some bytes.now.bytes
        → IsRecordAt pages (record { page = page; slot = slot }) record_bytes
        → (Contains reached (record { page = page; slot = slot }) → ⊥) × AreMarked uses.new left.new pages free used (reached ++ record { page = page; slot = slot } ∷ [])) }
    ensures again { IfOk result (λ found. found ≡ false → (pages : Pages) (free used : List ℕ) (reached : List RecordPlace) (record_bytes : List ℕ) → AreMarked uses.old left.old pages free used reached → pages page ≡ Some bytes.now.bytes
        → IsRecordAt pages (record { page = page; slot = slot }) record_bytes → Contains reached (record { page = page; slot = slot })) }
{
    let first = words_of(uses, left, page, bytes)?;
    Ok(left.take(first, slot))
}

// The first word of the marks of a slotted page with these bytes, each of whose records is left where the walk hasn't come there.
fn words_of(uses: &mut Uses, left: &mut Left, page: u32, bytes: &PageBytes) -> Result<u32, NoMemory>
    requires { IsSlotted bytes.now.bytes }
    ensures { IfOk result (λ first. (pages : Pages) (free used : List ℕ) (reached : List RecordPlace) → AreMarked uses.old left.old pages free used reached → pages page ≡ Some bytes.now.bytes → slots_of bytes.now.bytes ≢ []
        → AreMarked uses.new left.new pages free used reached × ((count : ℕ) × (use_of uses.new page ≡ PageUse.Slotted count first))) }
{
    if let PageUse::Slotted { first, .. } = uses.page_use(page) {
        return Ok(first);
    }
    let count = slot_count(bytes);
    let first = left.add_page(bytes)?;
    uses.set_use(page, PageUse::Slotted { first, count })?;
    Ok(first)
}

// Whether the page has a use, and no record of it is left.
pub fn is_in_use(uses: &Uses, left: &Left, page: u32) -> bool
    ensures yes { result ≡ true → (pages : Pages) (free used : List ℕ) (reached : List RecordPlace) → AreMarked uses.now left.now pages free used reached → HasUse pages free used reached page }
    ensures no { result ≡ false → (pages : Pages) (free used : List ℕ) (reached : List RecordPlace) → AreMarked uses.now left.now pages free used reached → page ≢ 0 → HasUse pages free used reached page → ⊥ }
{
    match uses.page_use(page) {
        PageUse::Unseen => false,
        PageUse::Free | PageUse::Chain => true,
        PageUse::Slotted { first, count } => !left.has_any(first, count),
    }
}
