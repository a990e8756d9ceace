//! Tests of `nx_records` over a host in memory. It has nothing but tests, so that all of it is proved
//! once.
#![tactic(auto)]

#[cfg(test)]
mod blocks;
#[cfg(test)]
mod checks;
#[cfg(test)]
mod formats;
#[cfg(test)]
mod groups;
#[cfg(test)]
mod maps;
#[cfg(test)]
mod pages;
#[cfg(test)]
mod random;
#[cfg(test)]
mod rows;
#[cfg(test)]
mod stores;
#[cfg(test)]
mod strangers;
