//! What holds of steps, and of runs of them.
ghost use Rattle.nx_steps.specs.Laws.{EffectsLeaveSums, StateStays, RoomIsCounted, RunsEditTrees, RunsKeepSound, RunsReplyPlainly, StepsAgree, StepsArePlain, StepsKeepSound, StepsStayFeasible, StepsStayPartitioned, StoredIsSound};
ghost use Rattle.nx_steps.specs.RequestLaws.{RequestsKeepSound, RequestRunsKeepSound, RequestsStayFeasible, RequestsStayPartitioned, RequestsStay, TransactionsEditTrees, RequestRunsEditTrees, RequestsAgree, RequestsReplyPlainly};

/// Each state that pages stand for is sound: its documents are such, cut into parts that aren't too heavy,
/// and its rules are those of a matrix.
pub fn stored_is_sound()
    ensures { StoredIsSound }
{}

/// Each step of a command that a script can give leaves a sound state sound.
pub fn steps_keep_sound()
    ensures { StepsKeepSound }
{}

/// The same of a run.
pub fn runs_keep_sound()
    ensures { RunsKeepSound }
{}

/// A step that is refused for weight or for want of room changes nothing. Each other one leaves the trees of
/// the same command over trees in memory, and has its reply, but for the number of intervals and where trees
/// in memory don't carry the command out.
pub fn steps_are_plain()
    ensures { StepsArePlain }
{}

/// The trees behind a run are those of its commands over trees in memory, those aside that were refused for
/// weight or for want of room.
pub fn runs_edit_trees()
    ensures { RunsEditTrees }
{}

/// The same of the replies of a run, where trees in memory carry all of its commands out.
pub fn runs_reply_plainly()
    ensures { RunsReplyPlainly }
{}

/// Two steps of one command in one state have the same reply and leave the same trees and rules, where none
/// was refused for want of room.
pub fn steps_agree()
    ensures { StepsAgree }
{}

/// A command that may not change what is stored leaves the state.
pub fn others_stay()
    ensures { StateStays }
{}

/// A command that has its effect leaves as many nodes and pages as the bound of room counts.
pub fn effects_leave_sums()
    ensures { EffectsLeaveSums }
{}

/// The bound of room counts what a command adds, and what it takes away.
pub fn room_is_counted()
    ensures { RoomIsCounted }
{}

/// Behind each step each document is cut into parts that aren't too heavy, where it was so before.
pub fn steps_stay_feasible()
    ensures { StepsStayFeasible }
{}

/// Behind each step the intervals of each document are a feasible partitioning of its tree.
pub fn steps_stay_partitioned()
    ensures { StepsStayPartitioned }
{}

/// Each step of a request that a script can give leaves a sound state sound.
pub fn requests_keep_sound()
    ensures { RequestsKeepSound }
{}

/// The same of a run of requests.
pub fn request_runs_keep_sound()
    ensures { RequestRunsKeepSound }
{}

/// Behind each step of a request each document is cut into parts that aren't too heavy, where it was so before.
pub fn requests_stay_feasible()
    ensures { RequestsStayFeasible }
{}

/// Behind each step of a request the intervals of each document are a feasible partitioning of its tree.
pub fn requests_stay_partitioned()
    ensures { RequestsStayPartitioned }
{}

/// A request that may not change what is stored leaves the state.
pub fn other_requests_stay()
    ensures { RequestsStay }
{}

/// The trees behind a transaction that is carried out are those of its commands over trees in memory.
pub fn transactions_edit_trees()
    ensures { TransactionsEditTrees }
{}

/// The trees behind a run of requests are those of its commands over trees in memory, those aside that were
/// refused for weight or for want of room, and those of transactions that were refused.
pub fn request_runs_edit_trees()
    ensures { RequestRunsEditTrees }
{}

/// Two steps of one request in one state have the same answer and leave the same trees and rules, where
/// nothing was refused for want of room.
pub fn requests_agree()
    ensures { RequestsAgree }
{}

/// A request that trees in memory carry out is answered as by these, but for the numbers of intervals, where it
/// isn't refused for weight or for want of room: a transaction by the same replies, or refused at the same
/// number and by the same word.
pub fn requests_reply_plainly()
    ensures { RequestsReplyPlainly }
{}
