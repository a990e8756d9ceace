//! Tests of stores and of runs over them, on hosts in memory. It has nothing but tests, so that all of it is
//! proved once.
#![tactic(auto)]

#[cfg(test)]
mod documents;
#[cfg(test)]
mod exports;
#[cfg(test)]
mod generated;
#[cfg(test)]
mod init;
#[cfg(test)]
mod laid;
#[cfg(test)]
mod memory_session;
#[cfg(test)]
mod old;
#[cfg(test)]
mod reads;
#[cfg(test)]
mod rows;
#[cfg(test)]
mod runs;
#[cfg(test)]
mod shows;
#[cfg(test)]
mod stops;
#[cfg(test)]
mod stores;
#[cfg(test)]
mod transactions;
