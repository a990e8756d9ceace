//! The laws of logs, each as the contract of a function that does nothing.
ghost use Rattle.nx_replay.specs.Laws.{GroupLaysOver, GroupsTell, SameGroupsTellSame};

/// An image stands for the groups of its log, laid over the pages of its pages area in order.
pub fn groups_tell()
    ensures { GroupsTell }
{}

/// Where its log has a group more, it stands for that group's pages over all others.
pub fn group_lays_over()
    ensures { GroupLaysOver }
{}

/// Where its log has the same groups, over the same pages area, it stands for the same.
pub fn same_groups()
    ensures { SameGroupsTellSame }
{}
