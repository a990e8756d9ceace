//! What edits and the pages that they may need have to do with each other.
ghost use Rattle.nx_edit.specs.Laws.{EditsCountPages};

/// The nodes that an edit keeps, with what it puts, have the long contents of the document behind it. So the pages that it
/// may need for them are at most those that this document takes.
pub fn edits_count_pages()
    ensures { EditsCountPages }
{}
