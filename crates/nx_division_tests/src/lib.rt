//! Tests of the division of a part that became too heavy, over public calls. It has nothing but tests, so that all of
//! it is proved once.
#![tactic(auto)]

#[cfg(test)]
mod examples;
#[cfg(test)]
mod matrix;
#[cfg(test)]
mod nodes;
#[cfg(test)]
mod plain;
#[cfg(test)]
mod sketches;
