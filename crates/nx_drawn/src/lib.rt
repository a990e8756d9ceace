//! Edits of documents whose intervals are drawn in, and the splits of parts that became too heavy.
//!
//! `specs/Edits.antt` says where a new node stands among intervals, and what becomes of them when a tree
//! goes; `specs/Splits.antt` what stands in the place of a part that is too heavy. The crate has definitions
//! and their laws alone, and knows of no command.
#![tactic(auto)]

pub mod laws;
