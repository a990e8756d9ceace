// What a crash leaves.
use nx_tree::Bytes;

/// The bytes of both areas.
#[derive(Drop)]
pub struct Image {
    pub pages: Bytes,
    pub log: Bytes,
}

/// What a crash makes of what was written since the last `sync` of its area.
#[derive(Clone, Copy, Debug, PartialEq, Eq)]
pub enum Choice {
    /// It is kept.
    Kept,
    /// It is lost: the area is as it was at that `sync`, its length too.
    Lost,
    /// The ranges that were written hold the byte 1, and so does what lies between an old end and the
    /// write behind it.
    Ones,
}
