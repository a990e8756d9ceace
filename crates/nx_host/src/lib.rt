//! The outside, as the layers above see it: a disk of two areas, input and output. It stands on
//! nothing of this repository.
//!
//! `Disk` and `Host` are traits. Their contracts say what each call does to the contents, to the
//! images that a crash may leave, to the input, the output and the counts of faults, at its end and
//! at every moment of it. The definitions stand in `specs/Disk.antt`, `specs/Host.antt` and, for
//! the one clock of both, `specs/Time.antt`.
//!
//! `Input` takes the input of a host in blocks, up to the most that a run takes; what was taken is
//! said in `specs/Input.antt`.
//!
//! A definition over hosts takes the bundle of a disk's meanings, `Ghosts D`. What calls that ask or
//! write the areas alone do is said in `specs/Still.antt`; what a phase of a run leaves as it was,
//! while it takes, gives or does both in turn, in `specs/Phase.antt`.
#![tactic(auto)]

mod disk;
mod host;
mod input;

pub use disk::{Area, Disk, Failed};
pub use host::Host;
pub use input::{Input, InputError};
