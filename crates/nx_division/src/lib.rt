//! The split of a part of a document that became too heavy, over the list of its nodes.
//!
//! What a split is, and where the separator joins the part above, stands in `nx_sketch`. Here it is drawn, node by node, and then written as intervals.
#![tactic(auto)]

mod cut;
mod division;
mod parts;
mod raise;
mod separate;
mod settle;
mod weigh;
mod wish;
mod write;

pub use division::{Division, split};
