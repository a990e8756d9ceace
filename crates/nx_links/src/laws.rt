//! The laws of byte lists on chain pages, each as the contract of a function that does nothing.
ghost use Rattle.nx_links.specs.Lists.{ListsAreHeld, ListsStand};

/// A list that sound pages hold stands on the chain pages from its first one on, and nothing else does.
pub fn lists_stand()
    ensures { ListsStand }
{}

/// What stands on chain pages from one on is a list that sound pages hold, or begins behind the first
/// page of a chain, or is the catalog.
pub fn lists_are_held()
    ensures { ListsAreHeld }
{}
