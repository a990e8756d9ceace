//! What holds of states and of the pages that stand for them.
ghost use Rattle.nx_state.specs.Laws.{CatalogComes, DocumentComes, DocumentGoes, DocumentsChange, DocumentsLeaveFree, DocumentsOwnContents, NewIsHeld, OneState};

/// An image of a store stands for one state at most, and for none where it has no page.
pub fn one_state()
    ensures { OneState }
{}

/// What a store holds that was just made is the state without documents and rules.
pub fn new_is_held()
    ensures { NewIsHeld }
{}

/// Where the records and the contents of one more document come, the records are those of all documents.
pub fn document_comes()
    ensures { DocumentComes }
{}

/// Where all records and contents of a document went, the records are those of the others.
pub fn document_goes()
    ensures { DocumentGoes }
{}

/// Where the records of some documents became those of others, and their contents too, the records are those of the
/// documents beside them and of these.
pub fn documents_change()
    ensures { DocumentsChange }
{}

/// A document's contents are named by its own records alone, each once.
pub fn documents_own_contents()
    ensures { DocumentsOwnContents }
{}

/// Another catalog changes no document.
pub fn catalog_comes()
    ensures { CatalogComes }
{}

/// How many pages are free beside the records of documents, by the number of their nodes and by the chain pages that
/// their long contents need.
pub fn documents_leave_free()
    ensures { DocumentsLeaveFree }
{}
