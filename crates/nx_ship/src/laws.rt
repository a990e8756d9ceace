//! What holds of streams of groups, and of a receiver to which a log's groups are applied.
ghost use Rattle.nx_ship.specs.Stream.{OneStream, SomeStream, HasLength, ReadsBack, StreamEndsWell, IsSent};
ghost use Rattle.nx_ship.specs.Moments.{EveryAppliedMoment, GroupsInTurnPass};
ghost use Rattle.nx_ship.specs.Recovery.{RecoversAlong, RecoversAfter, RecoversWhole, StatesAreWhole, StatesStayDense};
ghost use Rattle.nx_ship.specs.Shipped.{AppliesInSteps, ComesAlong, CatchesUp, StaysAlong, StartsAlong, IsAllWhole};

/// Bytes say one row of groups alone, and one rest behind it.
pub fn one_stream()
    ensures { OneStream }
{}

/// Any bytes say some row of groups.
pub fn some_stream()
    ensures { SomeStream }
{}

/// The groups that bytes say and the rest are as long as they.
pub fn has_length()
    ensures { HasLength }
{}

/// What is sent is read back.
pub fn reads_back()
    ensures one { ReadsBack }
    ensures all { StreamEndsWell }
{}

/// Bytes are the stream of the groups that they say, and the rest.
pub fn is_sent()
    ensures { IsSent }
{}

/// What commits and checkpoints do to what an image stands for.
pub fn in_steps()
    ensures { AppliesInSteps }
{}

/// A receiver that stood for what the sender did before a group stands for what it did after the groups that were applied.
pub fn comes_along()
    ensures pages { ComesAlong }
    ensures all { CatchesUp }
    ensures grown { StaysAlong }
{}

/// A receiver without pages to which all pages of the sender were applied, as one group, stands for what the sender does.
pub fn starts_along()
    ensures pages { StartsAlong }
    ensures whole { IsAllWhole }
{}

/// A receiver to which later groups of the sender were applied recovers to the state that the sender had behind them, and one to which
/// all of them were, or all pages, to the state of the sender.
pub fn recovers_along()
    ensures groups { RecoversAlong }
    ensures all { RecoversAfter }
    ensures whole { RecoversWhole }
{}

/// An image that recovers to a state isn't refused as damaged, and has no page missing.
pub fn states_are_whole()
    ensures whole { StatesAreWhole }
    ensures dense { StatesStayDense }
{}

/// While groups are applied, with so many lines out whole each image stands for as many groups, or one more.
pub fn every_applied_moment()
    ensures { EveryAppliedMoment }
{}

/// A stream of groups that come in turn is refused nowhere.
pub fn groups_in_turn_pass()
    ensures { GroupsInTurnPass }
{}
