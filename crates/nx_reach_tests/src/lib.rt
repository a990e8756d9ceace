//! Tests of name steps, over public calls. It has nothing but tests, so that all of it is proved once.
#![tactic(auto)]

#[cfg(test)]
mod cases;
#[cfg(test)]
mod finders;
#[cfg(test)]
mod found;
#[cfg(test)]
mod steps;
