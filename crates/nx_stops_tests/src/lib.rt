//! Tests of sessions that are stopped, or a call of whose host fails, at each call in turn, and of those that go on. It has
//! nothing but tests, so that all of it is proved once.
#![tactic(auto)]

#[cfg(test)]
mod hosts;
#[cfg(test)]
mod memory;
#[cfg(test)]
mod rows;
#[cfg(test)]
mod shipping;
#[cfg(test)]
mod stories;
#[cfg(test)]
mod tables;
