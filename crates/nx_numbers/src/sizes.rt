// The numbers of a store's format.

/// The bytes of a page.
pub const PAGE_SIZE: usize = 8192;

/// A store has at most so many pages.
pub const MOST_PAGES: u32 = 16_777_216;

/// The bytes of a page behind its head, which says what it is.
pub const PAGE_ROOM: usize = 8184;

/// The slots of a page are at most so many.
pub const MOST_SLOTS: usize = 2046;

/// The bytes of the longest record.
pub const LONGEST_RECORD: usize = 8176;

/// The bytes of a page in a group of the log: its number in four bytes, and its own.
pub const ENTRY_SIZE: usize = 8196;
