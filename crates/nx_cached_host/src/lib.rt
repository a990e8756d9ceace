//! A host in front of another that reads no page again that was read lately.
//!
//! `CachedHost` meets the traits `Disk` and `Host` wherever the host behind it does, and tells what that
//! one tells. It keeps whole pages as reads gave them (`specs/Kept.antt`).
#![tactic(auto)]

mod host;
mod kept;

pub use host::CachedHost;
