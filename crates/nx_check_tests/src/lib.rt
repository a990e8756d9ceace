//! Tests of `nx_check`: sound stores, and stores with damages, each with the verdict that the rules ask for.
#![tactic(auto)]

#[cfg(test)]
mod damages;
#[cfg(test)]
mod laid;
#[cfg(test)]
mod rows;
