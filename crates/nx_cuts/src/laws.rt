//! What holds of trees with their intervals drawn in.
ghost use Rattle.nx_cuts.specs.Law.{DrawnIsFeasible, DrawnIsInOrder, FeasibleIsDrawn};

/// A tree with its intervals drawn in, none of whose parts is too heavy, is feasibly partitioned by
/// them.
pub fn drawn_is_feasible()
    ensures { DrawnIsFeasible }
{}

/// Each feasible partitioning of a tree can be drawn in: the tree with the same intervals, in document
/// order.
pub fn feasible_is_drawn()
    ensures { FeasibleIsDrawn }
{}

/// The intervals of a tree are drawn in document order of their first members, the root's first.
pub fn drawn_is_in_order()
    ensures { DrawnIsInOrder }
{}
