//! Tests of the crates that know no host, over their public calls: trees and their edits, PYX, weights,
//! the lines and replies of a script that ask for what a store has, transactions, and the engine. Beside the tests it has what they share with others: the way to a document from its
//! lines.
#![tactic(auto)]

#[cfg(test)]
mod checks;
#[cfg(test)]
mod engine;
mod fixtures;
#[cfg(test)]
mod lines;
#[cfg(test)]
mod requests;
#[cfg(test)]
mod script;
#[cfg(test)]
mod streams;
#[cfg(test)]
mod trees;
#[cfg(test)]
mod weights;

pub use fixtures::{node, read};
