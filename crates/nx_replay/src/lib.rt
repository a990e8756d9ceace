//! What a disk of two areas stands for: the groups of its log, and the pages of its pages area with
//! those of the groups laid over them. The definitions stand in `specs/Log.antt` and `specs/Commit.antt`,
//! the laws from groups to pages in `specs/Laws.antt`; what the writes of a commit and of a checkpoint
//! leave of both, whole or cut short by a stop, is proved in `proofs/`. No code reads a disk here.
#![tactic(auto)]

pub mod laws;
