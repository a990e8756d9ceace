//! Documents laid out in records: each interval of a partitioning has a record with a piece of its own.
//!
//! `specs/Layout.antt` says which piece that is, and when records hold a document. It has definitions and their
//! laws alone, for the crates that load, read and edit documents.
#![tactic(auto)]

pub mod laws;
