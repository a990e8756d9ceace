// A group of pages.
ghost use Rattle.std.specs.Prelude.{◌≡◌, [], ◌∷◌, ◌++◌, length, slice_get, OnOk, OnErr};
ghost use Rattle.std.specs.Option.{option_copied};

use nx_slots::PageBytes;
use std::alloc::{AllocError, Global};
use std::marker::Model;

/// A page of a group: its number and its bytes.
#[derive(Clone, Copy, Debug)]
pub struct GroupPage {
    /// The number of the page. In a group that can be written they rise, and are below 16,777,216.
    pub page: u32,
    /// Its 8,192 bytes.
    pub bytes: PageBytes,
}

/// The pages of a group, in their order. Contracts see a list.
#[derive(Drop)]
pub struct GroupPages {
    pages: Vec<GroupPage>,
}

impl Model for GroupPages {
    ghost use Rattle.std.specs.Prelude.{List};
    ghost use Rattle.nx_groups.specs.declared.group.GroupPage.{GroupPage};

    ghost Value = { List GroupPage };

    ghost view = { λ a. a.pages.items };
}

impl GroupPages {
    /// No pages. It takes no memory.
    pub fn new(alloc: Global) -> GroupPages
        ensures { result ≡ [] }
    {
        GroupPages {
            pages: Vec::new(alloc),
        }
    }

    /// The pages of the vector, which isn't copied.
    pub fn from_vec(pages: Vec<GroupPage>) -> GroupPages
        ensures { result ≡ pages.items }
    {
        GroupPages { pages }
    }

    /// The pages as a vector, without a copy.
    pub fn into_vec(self) -> Vec<GroupPage>
        ensures { result.items ≡ self }
    {
        let GroupPages { pages } = self;
        pages
    }

    /// How many pages there are.
    pub fn len(&self) -> usize
        ensures { result ≡ length self.now }
    {
        self.pages.len()
    }

    /// The page at a place.
    pub fn get(&self, index: usize) -> Option<&GroupPage>
        ensures { option_copied result ≡ slice_get self.now index }
    {
        self.pages.get(index)
    }

    /// The pages in their order.
    pub fn as_slice(&self) -> &[GroupPage]
        ensures { result.now ≡ self.now }
    {
        self.pages.as_slice()
    }

    /// Puts a page behind the others.
    ///
    /// Errors: `AllocError` for want of memory; the pages stay then.
    pub fn push(&mut self, page: GroupPage) -> Result<(), AllocError>
        ensures ok { OnOk result (self.new ≡ self.old ++ page ∷ []) }
        ensures err { OnErr result (self.new ≡ self.old) }
    {
        match self.pages.push(page) {
            Ok(()) => Ok(()),
            Err(_) => Err(AllocError),
        }
    }

    /// Drops the pages. It takes no memory.
    pub fn clear(&mut self)
        ensures { self.new ≡ [] }
    {
        self.pages.clear();
    }
}

/// A group: its number and its pages.
#[derive(Drop)]
pub struct Group {
    /// The number of the commit that wrote it.
    pub number: u64,
    /// Its pages, in the order in which they stand.
    pub pages: GroupPages,
}
