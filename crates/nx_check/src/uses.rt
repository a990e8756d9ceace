// What a walk has come to of each page.
ghost use Rattle.std.specs.Prelude.{◌≡◌, ◌==◌, ℕ, true, false, if◌then◌else◌, IfOk};
ghost use Rattle.nx_check.specs.Uses.{use_of};

use nx_lists::NoMemory;
use std::alloc::Global;
use std::collections::BTreeMap;

// What a page is used for, as far as the walk has come.
#[derive(Clone, Copy, Debug, PartialEq, Eq)]
pub enum PageUse {
    // It hasn't come there.
    Unseen,
    // The page is free.
    Free,
    // A list stands on it.
    Chain,
    // It is slotted and has so many slots. Their marks begin at this word.
    Slotted { count: u16, first: u32 },
}

// What each page is used for. A page of the area takes 8 bytes, and one that the log alone has takes more.
#[derive(Drop)]
pub struct Uses {
    area: Vec<PageUse>,
    beyond: BTreeMap<u32, PageUse>,
}

impl Uses {
    // None, where the pages area has so many pages.
    pub fn new(alloc: Global, pages: u32) -> Result<Uses, NoMemory>
        ensures { IfOk result (λ uses. (p : ℕ) → use_of uses p ≡ PageUse.Unseen) }
    {
        let area = Vec::from_elem(alloc, PageUse::Unseen, pages as usize)?;
        Ok(Uses {
            area,
            beyond: BTreeMap::new(alloc),
        })
    }

    // What the page is used for.
    pub fn page_use(&self, page: u32) -> PageUse
        ensures { result ≡ use_of self.now page }
    {
        let index = page as usize;
        if index < self.area.len() {
            return self.area[index];
        }
        match self.beyond.get(&page) {
            Some(found) => *found,
            None => PageUse::Unseen,
        }
    }

    // Whether the walk hasn't come to the page.
    pub fn is_unseen(&self, page: u32) -> bool
        ensures yes { result ≡ true → use_of self.now page ≡ PageUse.Unseen }
        ensures no { result ≡ false → use_of self.now page ≡ PageUse.Unseen → ⊥ }
    {
        match self.page_use(page) {
            PageUse::Unseen => true,
            _ => false,
        }
    }

    // The page has this use now.
    pub fn set_use(&mut self, page: u32, page_use: PageUse) -> Result<(), NoMemory>
        ensures { IfOk result (λ done. (p : ℕ) → use_of self.new p ≡ (if p == page then page_use else use_of self.old p)) }
    {
        let index = page as usize;
        if index < self.area.len() {
            self.area[index] = page_use;
            return Ok(());
        }
        self.beyond.insert(page, page_use)?;
        Ok(())
    }
}
