//! What holds of the command lines themselves, apart from the code that carries them out, and of sessions one after
//! the other.
ghost use Rattle.nx_front.specs.Run.{IsCoherent, AnswersAgree};
ghost use Rattle.nx_front.specs.Sessions.{SessionsLead};
ghost use Rattle.nx_front.specs.declared.words.CommandLine.{CommandLine};

use nx_host::{Disk, Host};

/// What is said of the input of a command line holds together: a refusal that bytes show is one of
/// the whole input, whatever comes behind them, and an input has answers or one refusal. Its answers
/// have one text, but for `plan`: the plans of a document have the same bounds, equally many
/// intervals and root's parts of one weight. For `init`, a disk has pages or none, an image is as the disk
/// was or the new store, and that holds its settings and nothing else: it is that of the new state. For `run` over a
/// store, a disk holds one state at most, and none without a header, and an input has one list of requests. For `check`, pages
/// have one verdict at most, and are sound exactly where they stand for a state. For `ship`, an image has one text of what is shipped; for
/// `apply`, a stream has one row of groups, and what isn't applied is turned away for one reason.
pub fn outcomes()
    ensures together { (line : CommandLine) → IsCoherent line }
    ensures answers { (line : CommandLine) → AnswersAgree line }
{}

/// Over any list of sessions, each opened on an image that a stop of the one before it at any moment, or its end, may
/// have left, the last image holds what the first one held after some first requests of each session, one session after
/// the other: of each `run` all those whose replies were out whole, and at most one more. So no session loses what an
/// earlier one acknowledged, however each of them was stopped. An `apply` laid the first groups of its stream over the pages, all those whose lines were
/// out whole, and at most one more, where each of them leads to a state.
pub fn sessions<H: Host>()
    ensures { SessionsLead ⟦<H as Disk>⟧ }
{}
