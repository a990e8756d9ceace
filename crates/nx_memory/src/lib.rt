//! Two hosts in memory that tell everything: what their areas hold, the images that a crash may
//! leave, the input that is left, the output so far, at every moment since they were made, and which bytes
//! were renewed.
//!
//! Both keep a `Memory`: two areas, an input, an output, and the history of what changed them. What
//! the history tells of earlier moments is said in `specs/History.antt`.
#![tactic(auto)]

mod calls;
mod crash;
mod history;
mod host;
mod image;
mod memory;
mod quiet;
mod renewals;
mod reserved;
mod source;

pub use calls::Counts;
pub use host::MemoryHost;
pub use image::{Choice, Image};
pub use nx_lists::NoMemory;
pub use quiet::QuietHost;
