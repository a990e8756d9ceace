// Nodes by name in the documents of a store.
ghost use Rattle.std.specs.Prelude.{◌≡◌, false, IfOk, IfErr, OnOk};
ghost use Rattle.nx_host.specs.Still.{IsStill};
ghost use Rattle.nx_state.specs.State.{State};
ghost use Rattle.nx_store.specs.Naming.{MapsStored, AreNamesOf, FindsIn, ReadsNames, ReadsFinding, NotSearched, told_find};
ghost use Rattle.nx_store.specs.Store.{is_ended, HoldsOn, LeavesStore, GoesOn, IsAt, NotApplied};

use crate::{EngineError, Store};
use nx_find::{FindError, Names, Paths, Steps};
use nx_host::Disk;

impl Store {
    /// The labels at or below each record of the document of that name, or `None` exactly where there is none. It reads each of
    /// its records once, with the chain pages that it names for its proxies.
    ///
    /// Errors: `Disk`, only where `faults` rose; `Damaged`, only where the disk stood for no state when the store was opened;
    /// `Ended` exactly where an earlier call answered one of these; `Memory`, and then the store is as it was.
    pub fn names_of<D: Disk>(
        &mut self,
        disk: &mut D,
        name: &[u8],
    ) -> Result<Option<Names>, EngineError>
        ensures still { IsStill D.Disk disk.old disk.new }
        ensures ok { (state : State) (at : IsAt D.Disk self.old disk.old state) → IfOk result (λ names. AreNamesOf at.held state name.now names) }
        ensures goes { OnOk result (GoesOn self.old self.new) }
        ensures same { is_ended self.new ≡ false → LeavesStore self.old self.new }
        ensures holds { OnOk result (HoldsOn D.Disk self.old self.new disk.old disk.new) }
        ensures reads { ReadsNames D.Disk self.old name.now disk.old disk.new }
        ensures refused { IfErr result (λ e. NotApplied D.Disk e self.old self.new disk.old disk.new) }
    {
        if self.is_ended() {
            return Err(EngineError::Ended);
        }
        let Some(entry) = self.catalog.find(name) else {
            return Ok(None);
        };
        match nx_find::names_of(self.alloc, &mut self.records, disk, entry) {
            Ok(names) => Ok(Some(names)),
            Err(error) => Err(told_find(error)),
        }
    }

    /// The paths that the steps reach in the document of that name, or `None` exactly where there is none. `names` has to be what
    /// `names_of` gave of that document, as the store is now. It reads the root's record, and below it those that hold the last
    /// step's label, each once with its chain pages.
    ///
    /// Errors: those of `names_of`; `Damaged` besides where `names` are others.
    pub fn find<D: Disk>(
        &mut self,
        disk: &mut D,
        name: &[u8],
        names: &Names,
        steps: &Steps,
    ) -> Result<Option<Paths>, EngineError>
        ensures still { IsStill D.Disk disk.old disk.new }
        ensures ok { (state : State) (at : IsAt D.Disk self.old disk.old state) → MapsStored at.held state name.now names.now → IfOk result (λ paths. FindsIn state name.now steps.now paths) }
        ensures goes { OnOk result (GoesOn self.old self.new) }
        ensures same { is_ended self.new ≡ false → LeavesStore self.old self.new }
        ensures holds { OnOk result (HoldsOn D.Disk self.old self.new disk.old disk.new) }
        ensures reads { ReadsFinding D.Disk self.old names.now name.now steps.now disk.old disk.new }
        ensures refused { IfErr result (λ e. NotSearched D.Disk e name.now names.now self.old self.new disk.old disk.new) }
    {
        if self.is_ended() {
            return Err(EngineError::Ended);
        }
        let Some(entry) = self.catalog.find(name) else {
            return Ok(None);
        };
        match nx_find::find(self.alloc, &mut self.records, disk, names, entry, steps) {
            Ok(paths) => Ok(Some(paths)),
            Err(error) => Err(told_find(error)),
        }
    }
}

// Why a call of the store gives up whose search gave up so.
fn told_find(error: FindError) -> EngineError
    ensures { result ≡ told_find error }
{
    match error {
        FindError::Disk => EngineError::Disk,
        FindError::Damaged { page } => EngineError::Damaged { page },
        FindError::Ended => EngineError::Ended,
        FindError::Memory => EngineError::Memory,
    }
}
