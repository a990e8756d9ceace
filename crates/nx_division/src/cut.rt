// What becomes of a node in a plan.

/// How a node stands in a plan that is being made.
#[derive(Clone, Copy, Debug, PartialEq, Eq)]
pub(crate) enum Cut {
    // It stays in the part of its parent.
    Stays,
    // It is the first member of an interval.
    Begins,
    // It is a member of the interval of its neighbour before it.
    GoesOn,
}
