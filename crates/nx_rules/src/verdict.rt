// What a check of a store answers.
/// A rule that the pages of a store keep.
#[derive(Clone, Copy, Debug, PartialEq, Eq)]
pub enum PageRule {
    /// Page 0 is a header, and the page that is tried first for a new record is slotted.
    Header,
    /// The free list has free pages below the header's number of pages, each once.
    Free,
    /// The catalog's bytes are those of a catalog.
    Catalog,
    /// A page that a proxy or the catalog names is slotted.
    Slotted,
    /// A page that is named is there, and has the record.
    Missing,
    /// A record has the bytes of a piece.
    Form,
    /// A chain has chain pages that nothing else uses, as many as its list needs.
    Chain,
    /// A proxy has the number of the record's roots.
    Roots,
    /// A record is named once.
    Twice,
    /// The nodes are those of a document.
    Document,
    /// A piece weighs no more than the store's K.
    Weight,
    /// A document has an element, and as many nodes as the catalog says.
    Nodes,
    /// Each page below the header's number has a use, and each record is named; no page is there from that number on.
    Unused,
}

/// What was found of a store.
#[derive(Clone, Copy, Debug, PartialEq, Eq)]
pub enum Verdict {
    /// Its pages stand for a state.
    Sound,
    /// They break this rule, which is the first of them.
    Wrong {
        /// The page that is to blame.
        page: u32,
        /// What it breaks.
        rule: PageRule,
    },
}
