//! What holds of records and the documents that are laid out in them.
ghost use Rattle.nx_layouts.specs.Cutting.{AboveStands, IntervalIsLight, IntervalStandsIn, NodesOfRecords, PathIsMissing, PathLeadsOn, PathStays, RowIsFilled, RunsAfter, TreeGoesOut};
ghost use Rattle.nx_layouts.specs.Replace.{OneForSeveral};
ghost use Rattle.nx_layouts.specs.Drawn.{BodiesAreOfRows, RowsAreDrawnAlike};
ghost use Rattle.nx_layouts.specs.Layout.{OneDocument};
ghost use Rattle.nx_layouts.specs.Nodes.{HeldStays, ItemsShowNodes, OneNode};
ghost use Rattle.nx_layouts.specs.Planting.{ChildrenAreChanged, FallIsThere, IntervalIsPlanted, NodeIsPlanted, RootIsPlanted, RootsAreDivided};
ghost use Rattle.nx_layouts.specs.Setting.{ContentIsSet};
ghost use Rattle.nx_layouts.specs.Valid.{PieceIsValid};

/// From one record on the records hold one document at most, with one partitioning.
pub fn one_document()
    ensures { OneDocument }
{}

/// Two nodes that a record has alike, read in the same lists, are one.
pub fn one_node()
    ensures { OneNode }
{}

/// An item weighs what its node does, and has its kind, its name and the length of its content.
pub fn items_show_nodes()
    ensures { ItemsShowNodes }
{}

/// What a piece has of its row: the weight, the nodes, and the lists that its items name.
pub fn bodies_are_of_rows()
    ensures { BodiesAreOfRows }
{}

/// What is drawn of rows that are joined or cut in two.
pub fn rows_are_drawn_alike()
    ensures { RowsAreDrawnAlike }
{}

/// What is held is held still where the pieces of its records and the lists of its contents stay.
pub fn held_stays()
    ensures { HeldStays }
{}

/// Where one interval of a piece is replaced by others, just its proxy is replaced by theirs. With these held, and all
/// but that interval, the new layout is held, and it is light where both are. The row is as wide, it weighs as much more as
/// the trees that come outside of intervals, and with the same trees in them the forest is the same.
pub fn one_for_several()
    ensures { OneForSeveral }
{}

/// The members of an interval, one at least, have a piece that may be stored, where their items take at most
/// `k` slots, no part below weighs more than `k`, `k` is at most 256, at most 524,288 intervals are below them, and each
/// far content is as one may be.
pub fn piece_is_valid()
    ensures { PieceIsValid }
{}

/// What a record has without a tree of its own: the proxies and the places around the tree, and what is held, light and
/// counted then.
pub fn tree_goes_out()
    ensures { TreeGoesOut }
{}

/// What becomes of what a record has where one of its proxies changes or goes, or a row comes in its place.
pub fn runs_after()
    ensures { RunsAfter }
{}

/// Where an interval stands that a path leads into.
pub fn interval_stands_in()
    ensures { IntervalStandsIn }
{}

/// A row in which an interval is replaced.
pub fn row_is_filled()
    ensures { RowIsFilled }
{}

/// An interval in whose row one is replaced by light ones, for which it has room, is light.
pub fn interval_is_light()
    ensures { IntervalIsLight }
{}

/// Where a path leads to a tree of a piece, it stays in each row of members whose piece that is.
pub fn path_stays()
    ensures { PathStays }
{}

/// Where a path leads from a piece into the record of a proxy, it leads into the interval of that proxy.
pub fn path_leads_on()
    ensures { PathLeadsOn }
{}

/// Where a path leads from the piece of an interval into the record of a proxy, one position fewer leads to the node
/// above the interval of that proxy.
pub fn above_stands()
    ensures { AboveStands }
{}

/// Where a path leads to nothing in a piece, no tree of the document is there.
pub fn path_is_missing()
    ensures { PathIsMissing }
{}

/// The nodes of a row, record by record.
pub fn nodes_of_records()
    ensures { NodesOfRecords }
{}

/// Where a path leads to a tree of a piece, its node may get another content in each row of members whose piece that is.
pub fn content_is_set()
    ensures { ContentIsSet }
{}

/// Where a position falls between trees of a row, what a record has, holds and weighs with a node put in there.
pub fn node_is_planted()
    ensures { NodeIsPlanted }
{}

/// Where a position falls between trees of a row, what a record has, holds and weighs with an interval put in there.
pub fn interval_is_planted()
    ensures { IntervalIsPlanted }
{}

/// How a position among the children of a piece falls in the row that they are of.
pub fn fall_is_there()
    ensures { FallIsThere }
{}

/// Where a path leads to a tree of a piece, its children may be changed in each row of members whose piece that is.
pub fn children_are_changed()
    ensures { ChildrenAreChanged }
{}

/// What a record has with a new root among its free ones.
pub fn root_is_planted()
    ensures { RootIsPlanted }
{}

/// What becomes of the free roots of a record where those up to a position go apart from those behind it.
pub fn roots_are_divided()
    ensures { RootsAreDivided }
{}
