//! Documents that records hold, looked at: the node at a path, the canonical text, of a subtree too, also
//! given to an output, the stored partitioning.
//!
//! Each call takes the place of the record that has a document's root. Its contract speaks of every
//! document that the records hold from there on (`HasDocument` of `nx_hold`); where they hold none, it
//! answers what it finds, or that a page is damaged, and comes to an end.
#![tactic(auto)]

mod error;
mod exporting;
mod finding;
mod judging;
mod laid;
mod reading;
mod routing;
mod telling;
mod telling_content;
mod visited;
mod walking;

pub use error::NavError;
pub use exporting::{export, show};
pub use finding::{Outlined, Routed, Shown, get, get_route, outline};
pub use laid::{Laid, layout};
pub use reading::{damaged, piece_at};
pub use routing::{PassedRecord, Route};
pub use telling::{subtree_of, text_of};
