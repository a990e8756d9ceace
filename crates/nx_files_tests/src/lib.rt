//! Tests of `FileHost`: over readers, writers and folders that fail where a test says, and over real files.
//! It has nothing but tests, so that all of it is proved once.
#![tactic(auto)]

#[cfg(test)]
mod fakes;
#[cfg(test)]
mod files;
#[cfg(test)]
mod opening;
#[cfg(test)]
mod streams;
