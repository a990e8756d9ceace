//! Where a path leads in the bytes of a record. They are read along the path alone, and without memory: what stands behind the
//! place to which it leads isn't looked at.
//!
//! What is said holds of each piece of which the bytes are those (`specs/Written.antt`): where the path leads in it, and what stands
//! there.
#![tactic(auto)]

mod children;
mod items;
mod seeking;

pub use seeking::{Sought, seek};
