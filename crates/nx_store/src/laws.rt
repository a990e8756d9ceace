//! What holds of a store that has ended, by the clauses of its calls.
ghost use Rattle.nx_store.specs.Laws.{EndsByFault, AppliesEnded, AnswersEnded};

use nx_host::Disk;

/// After `Disk` and `Damaged` a store has ended. From then on each call of `apply`, by its clauses `ok` and `refused`,
/// and each of `answer` and `export_into`, by theirs, answers `Ended`, leaves the store ended and the disk as it was: it
/// writes nothing, gives nothing, and raises no count.
pub fn ended_stays<D: Disk>()
    ensures ends { EndsByFault D.Disk }
    ensures applied { AppliesEnded D.Disk }
    ensures answered { AnswersEnded D.Disk }
{}
