//! Byte lists on chain pages: what stands on them from a page on, and how reading them goes. It has
//! definitions and lemmas, and two laws of sound pages; no code reads pages here.
#![tactic(auto)]

pub mod laws;
