//! Tests of the program over real files. It has nothing but tests, so that all of it is proved once.
#![tactic(auto)]

#[cfg(test)]
mod session;
#[cfg(test)]
mod statuses;
