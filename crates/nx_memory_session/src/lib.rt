//! A store that is made in memory and answers a script there: what `run` promises, with no premise left
//! of the host and the disk.
#![tactic(auto)]

mod session;

pub use nx_front::{Status, Word, Words};
pub use nx_memory::{NoMemory, QuietHost};
pub use session::{Session, answer_script};
