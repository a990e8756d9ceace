//! What holds of minima, of choices over the minima of children, and of drawings.
ghost use Rattle.nx_minima.specs.ChoiceLaw.{ChoiceIsDrawn, ChoicesAreReached, MinimaAreLeastChoices, DrawnIsLean, MinimaAreOne, MinimaAreWithinBounds};

/// A choice over the children of a node and a drawing of each child's tree make a drawing of the
/// node's tree.
pub fn choice_is_drawn()
    ensures { ChoiceIsDrawn }
{}

/// Each admitted choice over the minima of the children is reached by a feasible partitioning.
pub fn choices_are_reached()
    ensures { ChoicesAreReached }
{}

/// The minima of a tree are what the least admitted choices over the minima of its children give.
pub fn least_choices()
    ensures { MinimaAreLeastChoices }
{}

/// There is one triple of minima, and it is within bounds.
pub fn one_triple()
    ensures one { MinimaAreOne }
    ensures within { MinimaAreWithinBounds }
{}

/// A drawing that reaches the first two minima of a tree is a lean optimal partitioning.
pub fn drawn_is_lean()
    ensures { DrawnIsLean }
{}
