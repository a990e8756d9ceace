//! Tests of partitionings, bounds and plans, over public calls. It has nothing but tests, so that all of
//! it is proved once.
#![tactic(auto)]

#[cfg(test)]
mod parts;
#[cfg(test)]
mod plans;
#[cfg(test)]
mod trial;
