//! Tests of `nx_ship` over hosts in memory. It has nothing but tests, so that all of it is proved once.
#![tactic(auto)]

#[cfg(test)]
mod hosts;
#[cfg(test)]
mod rows;
#[cfg(test)]
mod stops;
