// Where the bytes of a page stand.

/// Where the bytes of a page begin: at this offset of one of the two areas of a disk.
#[derive(Clone, Copy, Debug, PartialEq, Eq, Hash)]
pub enum Address {
    /// In the area of the pages.
    InPages(u64),
    /// In the log.
    InLog(u64),
}
