//! Documents put into records: one record for each interval of a partitioning.
#![tactic(auto)]

mod items;
mod storing;
mod walk;

pub use items::{add_proxy, members_end};
pub use storing::store;
