//! Tests of bounds that are found by several threads, over public calls. It has nothing but tests, so that all of
//! it is proved once.
#![tactic(auto)]

#[cfg(test)]
mod agreeing;
#[cfg(test)]
mod bounding;
#[cfg(test)]
mod meeting;
#[cfg(test)]
mod refused;
#[cfg(test)]
mod rows;
#[cfg(test)]
mod shapes;
