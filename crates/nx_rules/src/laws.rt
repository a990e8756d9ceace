//! What holds of verdicts.
ghost use Rattle.nx_rules.specs.Laws.{NoRuleBroken, NoneBroken, OneVerdict, PlacesFit, RecordComes, WaitsThere};

/// Pages have one verdict at most: one rule is the first that they break, and one page is to blame, or they keep all rules.
pub fn one_verdict()
    ensures { OneVerdict }
{}

/// Pages stand for a state exactly where they keep all rules.
pub fn no_rule_broken()
    ensures { NoRuleBroken }
{}

/// Of pages that stand for a state no rule is the first that they break.
pub fn none_broken()
    ensures { NoneBroken }
{}

/// A record that keeps the rules leads the walk on.
pub fn record_comes()
    ensures { RecordComes }
{}

/// What waits is what waits in the row of a place, and then what waits behind it.
pub fn waits_there()
    ensures { WaitsThere }
{}

/// The record that waits at a place is the one that is reached there, and its trees may stand there exactly where they may
/// under the node above.
pub fn places_fit()
    ensures { PlacesFit }
{}
