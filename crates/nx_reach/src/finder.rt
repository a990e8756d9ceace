// Nodes found on a walk that shows them one after another.
ghost use Rattle.std.specs.Prelude.{◌≡◌, [], ◌∷◌, OnOk, ◌++◌};
ghost use Rattle.nx_matrix.specs.Label.{label_by};
ghost use Rattle.nx_reach.specs.Seen.{Goes, HasComeTo, Opened, Closed, Skipped};

use crate::plain::add_match;
use crate::{Paths, State, Steps};
use nx_lists::NoMemory;
use nx_tree::{Kind, Path};
use std::alloc::Global;

/// The paths that were found so far on a walk below a document's root, and where it is.
#[derive(Drop)]
pub struct Finder<'a> {
    state: State<'a>,
    // The path of the node that the walk is in, and the position of its next child.
    path: Path,
    next: u32,
    found: Paths,
}

impl<'a> Finder<'a> {
    /// At the root, before its first child. It takes no memory.
    pub fn new(alloc: Global, steps: &'a Steps) -> Finder<'a>
        ensures steps { result.state.steps.now ≡ steps.now }
        ensures at { HasComeTo result (record { labels = []; path = []; next = 0; found = [] }) }
    {
        Finder {
            state: State::new(alloc, steps),
            path: Path::new(alloc),
            next: 0,
            found: Paths::new(alloc),
        }
    }

    /// The next child begins, of this kind and name.
    ///
    /// Errors: `NoMemory`.
    pub fn open(&mut self, kind: Kind, name: &[u8]) -> Result<(), NoMemory>
        ensures { OnOk result (Goes self.old (Opened (label_by kind name.now) ∷ []) self.new) }
    {
        self.path.push(self.next)?;
        let matches = self.state.open(kind, name)?;
        add_match(&mut self.found, self.path.as_slice(), matches)?;
        self.next = 0;
        Ok(())
    }

    /// The node ends that began last.
    ///
    /// Errors: `NoMemory` where the next position would pass 4,294,967,295.
    pub fn close(&mut self) -> Result<(), NoMemory>
        ensures { OnOk result (Goes self.old (Closed ∷ []) self.new) }
    {
        let depth = self.path.len();
        let position = match self.path.as_slice().last() {
            Some(position) => *position,
            None => 0,
        };
        self.next = position.checked_add(1).ok_or(NoMemory)?;
        self.path.truncate(depth.saturating_sub(1));
        self.state.close();
        Ok(())
    }

    /// So many children beside each other are passed over.
    ///
    /// Errors: `NoMemory` where the next position would pass 4,294,967,295.
    pub fn skip(&mut self, count: u32) -> Result<(), NoMemory>
        ensures { OnOk result (Goes self.old (Skipped count ∷ []) self.new) }
    {
        self.next = self.next.checked_add(count).ok_or(NoMemory)?;
        Ok(())
    }

    /// The paths that were found.
    pub fn into_found(self) -> Paths
        ensures { result ≡ self.entry.found }
    {
        let Finder { found, .. } = self;
        found
    }
}
