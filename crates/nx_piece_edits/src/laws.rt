//! What edits leave and bring of the contents of a piece.
ghost use Rattle.nx_piece_edits.specs.Contents.{EditsBringContent, EditsKeepContents};

/// Where something is taken out of a piece, or a proxy comes into it, the far contents are those that were there, and no
/// near one is long where none was.
pub fn edits_keep_contents()
    ensures { EditsKeepContents }
{}

/// Where a node comes into a piece, or another content of one, it may bring a far content, and else they are those that
/// were there.
pub fn edits_bring_content()
    ensures { EditsBringContent }
{}
