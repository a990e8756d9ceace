// The pages that wait for a commit, and the room that earlier ones had.
ghost use Rattle.std.specs.Prelude.{◌≡◌, ◌+◌, ◌<◌, ◌≤◌, ◌++◌, ◌∷◌, [], length, true, false, is_some, All, Some, IfNone, IfOk, IfSome, OnOk, OnErr, if◌then◌else◌};
ghost use Rattle.std.specs.Option.{option_map, option_copied};
ghost use Rattle.std.specs.Vec.{vec_capacity};
ghost use Rattle.std.specs.BTreeMap.{get, insert_entry, btree_map_len, values, IsEmpty, IsUnchanged, Updates};
ghost use Rattle.std.specs.Ordering.{nat_cmp};
ghost use Rattle.std.proofs.Props.{props};
ghost use Rattle.nx_numbers.specs.Sizes.{page_size, longest_record};
ghost use Rattle.nx_slots.specs.Rooms.{HasRoom};
ghost use Rattle.nx_slots.specs.Edits.{IsOneOfSeveral};
ghost use Rattle.nx_slots.specs.Slots.{slots_of, IsSlotted};
ghost use Rattle.nx_wal.specs.Places.{Kept, IsWholePage};
ghost use Rattle.nx_wal.specs.InPlace.{ChangesOnePage, PutsInto, TakesOut, WaitsBeside, WaitsWith};

use crate::PageBytes;
use nx_slots::{Room, clear_in, has_beside, put_at, room_in};
use std::alloc::{AllocError, Global};
use std::collections::BTreeMap;

// The pages that wait for a commit, by their numbers. The room that was taken for a page is used again
// for later ones.
#[derive(Drop)]
pub(crate) struct Waiting {
    pub(crate) pages: BTreeMap<u32, Box<PageBytes>>,
    // Room in which no page waits.
    spare: Vec<Box<PageBytes>>,
    pub(crate) alloc: Global,
    ghost whole: { All IsWholePage (values pages) } by { Prim.hlevel props },
    // Each room can be spare, so that no page takes memory when it waits no longer.
    ghost room: { btree_map_len pages + length spare.items ≤ vec_capacity spare },
}

impl Waiting {
    // No pages.
    pub(crate) fn new(alloc: Global) -> Waiting
        ensures { IsEmpty result.pages }
    {
        Waiting {
            pages: BTreeMap::new(alloc),
            spare: Vec::new(alloc),
            alloc,
        }
    }

    // The page that waits under a number.
    pub(crate) fn get(&self, page: u32) -> Option<&PageBytes>
        ensures { option_copied result ≡ option_map (λ kept. kept.value) (get nat_cmp self.now.pages page) }
    {
        match self.pages.get(&page) {
            Some(kept) => Some(kept.as_ref()),
            None => None,
        }
    }

    // Makes a page wait.
    pub(crate) fn put(&mut self, page: u32, bytes: &PageBytes) -> Result<(), AllocError>
        ensures ok { OnOk result ((kept : Kept) × (kept.value ≡ bytes.now) × Updates nat_cmp self.old.pages self.new.pages page (Some kept) × (self.new.pages.entries ≡ insert_entry nat_cmp self.old.pages.entries page kept)) }
        ensures count { OnOk result (btree_map_len self.new.pages ≡ btree_map_len self.old.pages + (if is_some (get nat_cmp self.old.pages page) then 0 else 1)) }
        ensures err { OnErr result (IsUnchanged self.old.pages self.new.pages) }
    {
        let kept = self.keep(bytes)?;
        match self.pages.insert(page, kept) {
            Ok(None) => Ok(()),
            Ok(Some(before)) => {
                give_back(&mut self.spare, before);
                Ok(())
            }
            Err(refused) => {
                let (_, kept) = refused.value;
                give_back(&mut self.spare, kept);
                Err(AllocError)
            }
        }
    }

    // A page in room of its own, which can be spare later.
    fn keep(&mut self, bytes: &PageBytes) -> Result<Box<PageBytes>, AllocError>
        ensures kept { IfOk result (λ kept. (kept.value ≡ bytes.now) × IsWholePage kept) }
        ensures room { OnOk result (btree_map_len self.new.pages + length self.new.spare.items < vec_capacity self.new.spare) }
        ensures stays { self.new.pages ≡ self.old.pages }
    {
        if let Some(kept) = self.spare.pop() {
            return Ok(filled(kept, bytes));
        }
        self.spare.reserve(self.pages.len() + 1)?;
        Ok(Box::new(self.alloc, copy_of(bytes))?)
    }

    // What room the page that waits under a number has, where one waits and is slotted.
    pub(crate) fn room(&self, page: u32) -> Option<Room>
        ensures some { IfSome result (λ room. (kept : Kept) × (get nat_cmp self.now.pages page ≡ Some kept) × HasRoom kept.value.bytes room) }
        ensures none { IfNone result ((kept : Kept) → get nat_cmp self.now.pages page ≡ Some kept → IsSlotted kept.value.bytes → ⊥) }
    {
        match self.pages.get(&page) {
            Some(kept) => room_in(kept.as_ref()),
            None => None,
        }
    }

    // Puts a record into the page that waits under a number, which has this room and takes it.
    pub(crate) fn put_record(&mut self, page: u32, room: Room, bytes: &[u8]) -> u16
        requires some { 1 ≤ length bytes.now }
        requires few { length bytes.now ≤ longest_record }
        requires waits { WaitsWith self.old.pages page room bytes.now }
        ensures { ChangesOnePage self.old.pages self.new.pages page (λ was now. PutsInto was bytes.now result now) }
    {
        let Some(kept) = self.pages.get_mut(&page) else {
            unreachable!();
        };
        let Ok(slot) = put_at(kept.as_mut(), room, bytes) else {
            unreachable!();
        };
        slot
    }

    // Whether a slotted page waits under a number, with a record in a slot and another one besides.
    pub(crate) fn has_beside(&self, page: u32, slot: u16) -> bool
        ensures yes { result ≡ true → WaitsBeside self.now.pages page slot }
        ensures no { result ≡ false → (kept : Kept) → get nat_cmp self.now.pages page ≡ Some kept → IsSlotted kept.value.bytes → IsOneOfSeveral (slots_of kept.value.bytes) slot → ⊥ }
    {
        match self.pages.get(&page) {
            Some(kept) => has_beside(kept.as_ref(), slot),
            None => false,
        }
    }

    // Takes a record out of the page that waits under a number, which has another one.
    pub(crate) fn clear_record(&mut self, page: u32, slot: u16)
        requires { WaitsBeside self.old.pages page slot }
        ensures { ChangesOnePage self.old.pages self.new.pages page (λ was now. TakesOut was slot now) }
    {
        let Some(kept) = self.pages.get_mut(&page) else {
            unreachable!();
        };
        clear_in(kept.as_mut(), slot);
    }

    // Lets no page wait any longer. It takes no memory.
    pub(crate) fn clear(&mut self)
        ensures { IsEmpty self.new.pages }
    {
        while let Some((_, kept)) = self.pages.pop_first() {
            give_back(&mut self.spare, kept);
        }
    }
}

// A page in room that another had.
fn filled(mut kept: Box<PageBytes>, page: &PageBytes) -> Box<PageBytes>
    ensures same { result.value ≡ page.now }
    ensures whole { IsWholePage result }
{
    kept.bytes = page.bytes;
    kept
}

// A page, all of whose bytes are there.
fn copy_of(page: &PageBytes) -> PageBytes
    ensures same { result ≡ page.now }
    ensures whole { length result.bytes ≡ page_size }
{
    PageBytes { bytes: page.bytes }
}

// Makes a page's room spare. It takes no memory.
fn give_back(spare: &mut Vec<Box<PageBytes>>, kept: Box<PageBytes>)
    requires { length spare.old.items < vec_capacity spare.old }
    ensures kept { spare.new.items ≡ spare.old.items ++ kept ∷ [] }
    ensures room { vec_capacity spare.old ≤ vec_capacity spare.new }
{
    let Ok(_) = spare.push(kept) else {
        unreachable!()
    };
}
