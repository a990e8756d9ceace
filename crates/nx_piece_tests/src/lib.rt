//! Tests of pieces, over public calls. It has nothing but tests, so that all of it is proved once.
#![tactic(auto)]

#[cfg(test)]
mod examples;
#[cfg(test)]
mod far;
#[cfg(test)]
mod reads;
