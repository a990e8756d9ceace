//! What holds of the pieces that records hold.
ghost use Rattle.nx_hold.specs.Pieces.{ContentComesTidy, ContentGoesTidy, ContentsStay, HavePieceMap, OnePiece, OtherPiecesStay, PiecesStay, TidyStays};
ghost use Rattle.nx_hold.specs.Changes.{AddsStay, MapGrows};
ghost use Rattle.nx_hold.specs.Documents.{ContentLeaves, ContentMoves, ContentsStayAround, MovesAddUp, MovesBeside, MovesSame, NamedInLayout, OneWentSeveralCame, PieceAddsRecord, PiecesStayAround, PiecesStayBeside, RecordsAddUp, RemoveMoves, UpdateMoves};

/// The record at a place holds one piece at most.
pub fn one_piece()
    ensures { OnePiece }
{}

/// What changes neither a record nor the list that it names leaves its piece.
pub fn pieces_stay()
    ensures { PiecesStay }
{}

/// Where no two records name one list, and each list that is named is there, a change of one record leaves the pieces
/// of all others.
pub fn others_stay()
    ensures { OtherPiecesStay }
{}

/// The pieces of a store are a map from the places of their records.
pub fn have_piece_map()
    ensures { HavePieceMap }
{}

/// Where each list that a record names is there, and one of proxies is named once and for nothing else, that stays so
/// when one record changes, and the one that comes holds a piece whose contents might be named before.
pub fn tidy_stays()
    ensures { TidyStays }
{}

/// A change of one record leaves each list that holds no record's proxies.
pub fn contents_stay()
    ensures { ContentsStay }
{}

/// A list that comes leaves lists in order, and no record names it.
pub fn content_comes_tidy()
    ensures { ContentComesTidy }
{}

/// A list that goes leaves lists in order where no record names it.
pub fn content_goes_tidy()
    ensures { ContentGoesTidy }
{}

/// A piece that was added is where none was, and all earlier ones stay.
pub fn adds_stay()
    ensures { AddsStay }
{}

/// An added piece makes the map of pieces grow: it had nothing at the place, has the piece there, and
/// all that it had.
pub fn map_grows()
    ensures { MapGrows }
{}

/// A piece that was added came as a record at its place, with the list that it names.
pub fn piece_adds_record()
    ensures { PieceAddsRecord }
{}

/// Records that came one after the other came at all these places, and need as many pages as both.
pub fn records_add_up()
    ensures { RecordsAddUp }
{}

/// Where records came at places that were free, each piece stays where it was.
pub fn pieces_stay_beside()
    ensures { PiecesStayBeside }
{}

/// In which order records are named that move says nothing, and what needs some pages at most needs no more than
/// more of them.
pub fn moves_same()
    ensures { MovesSame }
{}

/// What moved in two steps moved.
pub fn moves_add_up()
    ensures { MovesAddUp }
{}

/// Records that are there and stay may be counted among those that move.
pub fn moves_beside()
    ensures { MovesBeside }
{}

/// A piece that was put in the place of another moved a record.
pub fn update_moves()
    ensures { UpdateMoves }
{}

/// A piece that was taken away moved a record.
pub fn remove_moves()
    ensures { RemoveMoves }
{}

/// A list that was written moved no record.
pub fn content_moves()
    ensures { ContentMoves }
{}

/// Nor did a list that was taken away, where no record named it.
pub fn content_leaves()
    ensures { ContentLeaves }
{}

/// Where a piece was taken away and then records came, one record went and several came.
pub fn one_went_several_came()
    ensures { OneWentSeveralCame }
{}

/// Where records moved and no two named one list, each piece whose record didn't go or change stays, and so do the
/// lists that its record names.
pub fn pieces_stay_around()
    ensures { PiecesStayAround }
{}

/// Where records moved, a list that holds no record's proxies stays, if it isn't one of a content that went.
pub fn contents_stay_around()
    ensures { ContentsStayAround }
{}

/// The contents that the records of a layout name are those of its nodes.
pub fn named_in_layout()
    ensures { NamedInLayout }
{}
