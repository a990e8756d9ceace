//! What holds of splits in documents that are drawn, and of drafts.
ghost use Rattle.nx_drafts.specs.Laws.{DivisionIsDrafted, NeedsAreFew, NodesStayInOrder, PieceHasMembers, PlacesAreBoth};
ghost use Rattle.nx_drafts.specs.Once.{HeavyIsThere};
ghost use Rattle.nx_drafts.specs.Rows.{LightRowStays, OneIsSplit, RootIsSplit, RowSplitsAbove, RowSplitsByLabel, SplitStaysAbove};

/// A division can be drawn into the layout of the part that it divides.
pub fn division_is_drafted()
    ensures { DivisionIsDrafted }
{}

/// Where one interval is replaced by a split of it, the whole row is split.
pub fn one_is_split()
    ensures { OneIsSplit }
{}

/// Where the members of an interval are split, whose own part stays, the row is split that has the interval: so a
/// split goes up through the records above it.
pub fn split_stays_above()
    ensures { SplitStaysAbove }
{}

/// Where the interval below was split into whatever row, and the part above it doesn't become too heavy, the interval
/// above is split into one that has this row: so a change goes up, whether a record below was divided or not.
pub fn row_splits_above()
    ensures { RowSplitsAbove }
{}

/// Of the node above it a row's split asks the label alone, so that the node may be as a record has it, wherever its content
/// stands.
pub fn row_splits_by_label()
    ensures { RowSplitsByLabel }
{}

/// A row none of whose parts is too heavy is split into itself.
pub fn light_row_stays()
    ensures { LightRowStays }
{}

/// The whole document is split where the interval of its root is.
pub fn root_is_split()
    ensures { RootIsSplit }
{}

/// Of a draft whose records have all come, the places are those that came and those that stood.
pub fn places_are_both()
    ensures { PlacesAreBoth }
{}

/// Once all records have come, the nodes are those that were there, with their contents where they stood.
pub fn nodes_stay_in_order()
    ensures { NodesStayInOrder }
{}

/// The records of a draft that are to come may take two pages for each node at most.
pub fn needs_are_few()
    ensures { NeedsAreFew }
{}

/// Each piece that may be divided is that of some layout.
pub fn piece_has_members()
    ensures { PieceHasMembers }
{}

/// Where one part of a row at most is too heavy, whoever finds one that is, or that one below it is, knows that it may
/// be divided, and that no part beside it is too heavy.
pub fn heavy_is_there()
    ensures { HeavyIsThere }
{}
