// Reading byte lists page by page.
ghost use Rattle.std.specs.Prelude.{List as Items, ◌≡◌, ◌≢◌, ◌⊎◌, ◌+◌, ◌*◌, ◌++◌, ◌≤◌, [], ℕ, length, true, false, IfOk, IfErr, IfSome, IfNone};
ghost use Rattle.std.proofs.Props.{props};
ghost use Rattle.nx_numbers.specs.Sizes.{page_room};
ghost use Rattle.nx_host.specs.Disk.{Image};
ghost use Rattle.nx_host.specs.Still.{IsStill};
ghost use Rattle.nx_links.specs.Lists.{IsLinkAt};
ghost use Rattle.nx_replay.specs.Log.{Pages};

use crate::{Records, StoreError};
use nx_host::Disk;
use nx_lists::List;
use std::alloc::Global;

/// How far a byte list was read. `Records::open_list` makes one, and `Records::next_block` reads on.
#[derive(Clone, Copy)]
pub struct ListReader {
    // The first page, the page that is read next, 0 for none, and how many bytes are left.
    pub(crate) first: u32,
    pub(crate) next: u32,
    pub(crate) left: u64,
    ghost ends: { (next ≡ 0 → left ≡ 0) × (left ≡ 0 → next ≡ 0) } by { Prim.hlevel props },
}

impl ListReader {
    ghost use Rattle.nx_records.specs.Reading.{Opens};

    // Nothing was read yet of so many bytes from a page on, 0 where there are none.
    pub(crate) fn new(first: u32, len: u64) -> Option<ListReader>
        ensures some { IfSome result (λ reader. Opens reader first len) }
        ensures none { IfNone result ((first ≡ 0) × (len ≢ 0) ⊎ (first ≢ 0) × (len ≡ 0)) }
    {
        if (first == 0) != (len == 0) {
            return None;
        }
        Some(ListReader {
            first,
            next: first,
            left: len,
        })
    }

    // With the bytes of a page read, behind which this page is next.
    pub(crate) fn behind(&self, next: u32, taken: u64) -> Option<ListReader>
        ensures some { IfSome result (λ reader. (reader.first ≡ self.now.first) × (reader.next ≡ next) × (taken + reader.left ≡ self.now.left)) }
        ensures none { IfNone result ((next ≡ 0) × (taken ≢ self.now.left) ⊎ (next ≢ 0) × (self.now.left ≤ taken)) }
    {
        if taken > self.left || (next == 0) != (taken == self.left) {
            return None;
        }
        Some(ListReader {
            first: self.first,
            next,
            left: self.left - taken,
        })
    }

    /// How many bytes are left, 0 exactly behind the last block.
    pub fn left(&self) -> u64
        ensures { result ≡ self.now.left }
    {
        self.left
    }
}

impl Records {
    ghost use Rattle.nx_records.specs.Records.{LeavesRecords, IsInStepWith, current_pages, has_ended, page_count_of};
    ghost use Rattle.nx_records.specs.Changes.{LacksList};
    ghost use Rattle.nx_records.specs.Refusals.{NotRead};
    ghost use Rattle.nx_records.specs.Reading.{Opens, IsBlock, AreReadBy, NotReadOn};

    /// Begins to read the byte list of so many bytes at a first page, block by block. It asks the disk
    /// nothing, and takes no memory.
    ///
    /// Errors: `Damaged` with the first page, only where the pages aren't sound or no list of that
    /// length is there; `Ended` exactly where the records had ended.
    pub fn open_list<D: Disk>(
        &mut self,
        disk: &D,
        first: u32,
        len: u64,
    ) -> Result<ListReader, StoreError>
        ensures ok { IfOk result (λ reader. (has_ended self.old ≡ false) × (self.new ≡ self.old) × Opens reader first len × (len ≤ page_room * page_count_of self.old)) }
        ensures begins { IfOk result (λ reader. (pages : Pages) → AreReadBy self.old.head pages reader len []) }
        ensures refused { IfErr result (λ e. NotRead D.Disk (λ now. LacksList now first len) first e self.old self.new disk.now disk.now) }
        ensures causes { IfErr result (λ e. (e ≡ StoreError.Damaged first) ⊎ (e ≡ StoreError.Ended)) }
    {
        if self.ended {
            return Err(StoreError::Ended);
        }
        if !self.may_begin(first, len) {
            return Err(self.damaged(first));
        }
        let Some(reader) = self.start_chain(first, len) else {
            return Err(self.damaged(first));
        };
        Ok(reader)
    }

    /// The next block of a list, which is what the chain page has where the reader stood: at most 8,184 bytes,
    /// and just as many but in the last one. Behind the last it answers none. It reads one page at most. Where
    /// nothing was changed in between, the blocks one behind the other are what `read_list` gives, and with
    /// the last one it is sure that they have the length that was asked for. After an error the reader
    /// stands where it stood.
    ///
    /// Errors: `Damaged` with the list's first page, only where from the reader's page on no chain pages
    /// hold as many bytes as are left; `Disk`, only where `faults` rose; `Ended` exactly where the
    /// records had ended; `Memory`.
    pub fn next_block<D: Disk>(
        &mut self,
        alloc: Global,
        disk: &mut D,
        reader: &mut ListReader,
    ) -> Result<Option<List<u8>>, StoreError>
        ensures still { IsStill D.Disk disk.old disk.new }
        ensures reads { D.reads disk.new ≤ D.reads disk.old + 1 }
        ensures ok { IfOk result (λ found. (has_ended self.old ≡ false) × LeavesRecords self.old self.new) }
        ensures block { IfOk result (λ found. IfSome found (λ block. IsBlock reader.old reader.new block)) }
        ensures stood { IfOk result (λ found. IfSome found (λ block. (was : Image) → IsInStepWith D.Disk self.old disk.old was → IsLinkAt (current_pages self.old was) reader.old.next reader.new.next block)) }
        ensures goes_on { IfOk result (λ found. IfSome found (λ block. (was : Image) (len : ℕ) (bytes : Items ℕ) → IsInStepWith D.Disk self.old disk.old was
            → AreReadBy self.old.head (current_pages self.old was) reader.old len bytes → AreReadBy self.old.head (current_pages self.old was) reader.new len (bytes ++ block))) }
        ensures ends { IfOk result (λ found. IfNone found ((reader.old.left ≡ 0) × (reader.new ≡ reader.old) × (disk.new ≡ disk.old))) }
        ensures refused { IfErr result (λ e. NotReadOn D.Disk reader.old e self.old self.new disk.old disk.new) }
        ensures stays { IfErr result (λ e. reader.new ≡ reader.old) }
    {
        if self.ended {
            return Err(StoreError::Ended);
        }
        if reader.left == 0 {
            return Ok(None);
        }
        let named = reader.first;
        let block = self.read_on(alloc, disk, reader, named)?;
        Ok(Some(block))
    }
}
