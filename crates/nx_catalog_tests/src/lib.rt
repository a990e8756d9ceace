//! Tests of `nx_catalog`. It has nothing but tests, so that all of it is proved once.
#![tactic(auto)]

#[cfg(test)]
mod bytes;
#[cfg(test)]
mod checks;
#[cfg(test)]
mod made;
#[cfg(test)]
mod saved;
#[cfg(test)]
mod stores;
