//! What holds of edits and splits.
ghost use Rattle.nx_drawn.specs.Placement.{PlantsRuns, RemovesRuns};
ghost use Rattle.nx_drawn.specs.Growth.{InsertGrowsLittle, PlantGrowsLittle, RetextGrowsLittle};
ghost use Rattle.nx_drawn.specs.Laws.{DividedIsLight, DrawnEditsAreEdits, DrawnEditsStayLight, LightStays, MarksAreLeft, NothingAboveIsSplit, PieceIsPart, RaisedHasRoom, SplitsLeaveTrees};

/// An edit of what is drawn is the edit of the tree.
pub fn drawn_edits_are_edits()
    ensures { DrawnEditsAreEdits }
{}

/// Behind an edit with its splits each interval has members of its own, and no part is too heavy.
pub fn drawn_edits_stay_light()
    ensures { DrawnEditsStayLight }
{}

/// A split leaves the tree as it is.
pub fn splits_leave_trees()
    ensures { SplitsLeaveTrees }
{}

/// A document none of whose parts is too heavy is split nowhere.
pub fn light_stays()
    ensures { LightStays }
{}

/// A part that is divided has no part that is too heavy, also under a limit above K.
pub fn divided_is_light()
    ensures { DividedIsLight }
{}

/// What joins the part above a divided one weighs no more than the room that there was.
pub fn raised_has_room()
    ensures { RaisedHasRoom }
{}

/// Where one part at most is too heavy, nothing above it is split.
pub fn nothing_above_is_split()
    ensures { NothingAboveIsSplit }
{}

/// A split sees of the piece of an interval what it sees of the interval's part.
pub fn piece_is_part()
    ensures { PieceIsPart }
{}

/// A layout's row changes as what is drawn, whatever the places of its records are.
pub fn marks_are_left()
    ensures { MarksAreLeft }
{}

/// What an `insert` does to the intervals below the new node's parent, by their first and last positions.
pub fn plants_runs()
    ensures { PlantsRuns }
{}

/// What a `delete` does to the intervals below the lost tree's parent, by their first and last positions.
pub fn removes_runs()
    ensures { RemovesRuns }
{}

/// Where a node comes into a row of a record that doesn't outweigh K, one part at most becomes too heavy: by no more
/// than the node's weight, and with one member more at most.
pub fn plant_grows_little()
    ensures { PlantGrowsLittle }
{}

/// An `insert` of a node that doesn't outweigh K makes one part at most too heavy, by no more than the node's weight.
pub fn insert_grows_little()
    ensures { InsertGrowsLittle }
{}

/// So does a `retext`, where the node doesn't outweigh K with its new content.
pub fn retext_grows_little()
    ensures { RetextGrowsLittle }
{}
