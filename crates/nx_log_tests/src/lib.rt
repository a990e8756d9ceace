//! Tests of `nx_wal` over hosts in memory, and of these hosts. It has nothing but tests, so that all of
//! it is proved once.
#![tactic(auto)]

#[cfg(test)]
mod hosts;
#[cfg(test)]
mod logs;
#[cfg(test)]
mod stops;
#[cfg(test)]
mod stores;
