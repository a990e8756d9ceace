//! Tests of `nx_hold` over a host in memory. It has nothing but tests, so that all of it is proved once.
#![tactic(auto)]

#[cfg(test)]
mod contents;
#[cfg(test)]
mod forms;
#[cfg(test)]
mod made;
#[cfg(test)]
mod pages;
#[cfg(test)]
mod stores;
