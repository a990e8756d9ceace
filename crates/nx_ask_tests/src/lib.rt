//! Tests of questions over a snapshot, on hosts in memory. It has nothing but tests, so that all of it is proved once.
#![tactic(auto)]

#[cfg(test)]
mod causes;
#[cfg(test)]
mod meeting;
#[cfg(test)]
mod rows;
#[cfg(test)]
mod runs;
#[cfg(test)]
mod sharing;
#[cfg(test)]
mod stores;
#[cfg(test)]
mod tails;
