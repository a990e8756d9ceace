//! What holds of the pages of a store themselves, apart from the code that reads and changes them.
ghost use Rattle.nx_holdings.specs.Laws.{AreDense, HaveFree, HoldOne};

/// Pages hold one thing at most.
pub fn hold_one()
    ensures { HoldOne }
{}

/// Of sound pages at least so many are free: the page limit, less the header, one for each record, and
/// the chain pages of the lists and of the catalog.
pub fn have_free()
    ensures { HaveFree }
{}

/// Of sound pages none is missing below one that is there.
pub fn are_dense()
    ensures { AreDense }
{}
