//! The outside of the program: the two files of a store, an input and an output, as a `Host`.
//!
//! `FileHost` tells nothing of what a file, a pipe or a terminal holds, so that no proof assumes
//! anything of them. What its calls do to the system is said where they are; that the system does
//! its part is trusted.
#![tactic(auto)]

mod area_file;
mod cursor;
mod file;
mod host;
mod locked;
mod opening;
mod own;
mod settled;
mod sight;
mod store;
mod stream;
mod system;

pub use file::{Folder, StoreFile};
pub use host::FileHost;
pub use sight::{Identity, Sight, Stream, Streams};
pub use system::{SystemFile, SystemFolder};
