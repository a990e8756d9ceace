//! Where a split sees the nodes of a piece.
ghost use Rattle.nx_split.specs.Laws.{IsListedWhereReached, IsReachedWhereListed};

/// A split sees the nodes of a piece just where paths lead to them in it, by `locate`: a node to which a path
/// leads is listed with that path, and to each listed node its path leads.
pub fn nodes_stand_where_paths_lead()
    ensures listed { IsListedWhereReached }
    ensures reached { IsReachedWhereListed }
{}
