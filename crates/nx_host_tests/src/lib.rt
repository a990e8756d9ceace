//! Tests of what takes its input from a host, over public calls: scripts and their replies, and whole
//! runs that use no disk, on hosts that tell all that was done to them. It has nothing but tests, so that all of it is
//! proved once.
#![tactic(auto)]

#[cfg(test)]
mod driven;
#[cfg(test)]
mod endless;
#[cfg(test)]
mod host;
#[cfg(test)]
mod plans;
#[cfg(test)]
mod replies;
#[cfg(test)]
mod runs;
#[cfg(test)]
mod scripts;
#[cfg(test)]
mod verdicts;
