//! What holds of catalogs and their bytes.
ghost use Rattle.nx_catalog.specs.Laws.{OneCatalog, FirstCatalog, CatalogIsShort, LengthByNames, SetLengthens, RemoveShortens, RenameLengthens, RuleAdds};

/// No two catalogs have the same bytes.
pub fn one_catalog()
    ensures { OneCatalog }
{}

/// The catalog of a new store, eight bytes 0, has no document and no rule.
pub fn first_catalog()
    ensures { FirstCatalog }
{}

/// A catalog has at most 8 bytes, 267 for each document, and 2,053 for each rule.
pub fn catalog_is_short()
    ensures { CatalogIsShort }
{}

/// How many bytes a catalog has depends on its names and labels alone.
pub fn length_by_names()
    ensures { LengthByNames }
{}

/// Another entry under a name takes as many bytes as before, and one under a new name 12 bytes more
/// and those of the name.
pub fn set_lengthens()
    ensures { SetLengthens }
{}

/// A document that goes takes 12 bytes and those of its name with it, and a name that isn't there
/// takes nothing.
pub fn remove_shortens()
    ensures { RemoveShortens }
{}

/// A document under another name, which no document has, takes as many bytes more or fewer as that name
/// has, and there are as many documents as before.
pub fn rename_lengthens()
    ensures { RenameLengthens }
{}

/// Where the entry of one pair of labels is made, there is at most one rule more.
pub fn rule_adds()
    ensures { RuleAdds }
{}
