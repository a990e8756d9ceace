//! Shipping the groups of a store's log to a second store: `ship` gives them as a stream, and `apply` takes such a stream
//! and commits its groups, each the next one, to the other store.
//!
//! What a stream says stands in `specs/Stream.antt`, which group may come next in `specs/Next.antt`, and what the two calls
//! do in `specs/Sending.antt` and `specs/Applying.antt`. What holds of a receiver stands in `specs/Shipped.antt`.
#![tactic(auto)]

mod applying;
mod error;
pub mod laws;
mod opening;
mod reader;
mod receiver;
mod sender;
mod shipping;

pub use applying::apply;
pub use error::{ShipError, Start};
pub use shipping::ship;
