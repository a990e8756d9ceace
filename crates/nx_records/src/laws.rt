//! The laws of records, each as the contract of a function that does nothing.
ghost use Rattle.nx_records.specs.Laws.{AbandonLeadsBack, BlocksAreLists, HeaderTells, ListsGoOn, ReadingLeaves};

use nx_host::Disk;

/// Of sound pages `has_free_page`, which asks the header alone, tells exactly whether a page is free.
pub fn header_tells()
    ensures { HeaderTells }
{}

/// After `abandon`, by its clauses, the records stand for what the last commit holds.
pub fn abandon_leads_back<D: Disk>()
    ensures { AbandonLeadsBack D.Disk }
{}

/// What a call leaves that only reads stands for the same as before.
pub fn reading_leaves<D: Disk>()
    ensures { ReadingLeaves D.Disk }
{}

/// The blocks that `next_block` gives of a list are, one behind the other, what `read_list` gives.
pub fn blocks_are_lists()
    ensures { BlocksAreLists }
{}

/// Where from the reader's page on no chain pages hold what is left, for which `next_block` answers `Damaged`, sound
/// pages have no list of that length at the first page.
pub fn lists_go_on()
    ensures { ListsGoOn }
{}
