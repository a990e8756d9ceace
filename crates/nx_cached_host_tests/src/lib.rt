//! Tests of the host that keeps pages, over a host in memory. It has nothing but tests, so that all of it is
//! proved once.
#![tactic(auto)]

#[cfg(test)]
mod pages;
