// Commands that change nothing of what is stored.
ghost use Rattle.std.specs.Prelude.{◌≡◌, false, map, IsSome, IfOk, IfErr, OnOk};
ghost use Rattle.std.specs.FinMap.{entries};
ghost use Rattle.nx_host.specs.Disk.{Image, Rose};
ghost use Rattle.nx_host.specs.Still.{IsStill, IsSettled, WritesAlone};
ghost use Rattle.nx_records.specs.Records.{log_length_of, image_group_count};
ghost use Rattle.nx_script.specs.declared.command.Command.TheVariants as command;
ghost use Rattle.nx_store.specs.Told.{line_of};
ghost use Rattle.nx_state.specs.State.{State};
ghost use Rattle.nx_steps.specs.Step.{Step};
ghost use Rattle.nx_store.specs.Reads.{ReadsWithin};
ghost use Rattle.nx_script.specs.declared.request.Request.TheVariants.{Single};
ghost use Rattle.nx_store.specs.Staying.{LeavesOthers};
ghost use Rattle.nx_store.specs.Store.{is_ended, HoldsOn, RefusedHolds, LeavesStore, EndsNow, GoesOn, IsAt, IsOf, IsApplied, NotApplied};

use crate::error::{is_no_node, told_by};
use crate::{EngineError, Store};
use nx_host::Disk;
use nx_script::{DocLine, DocLines, Reply, ReplyError};
use nx_tree::{Bytes, Path};

impl Store {
    /// The reply to `names`: the documents of the catalog. The disk isn't asked.
    ///
    /// Errors: `Memory`.
    pub fn names(&self) -> Result<Reply, EngineError>
        ensures ok { IfOk result (λ reply. reply ≡ Reply.Names (map line_of (entries (self.now.catalog).documents))) }
        ensures err { IfErr result (λ e. e ≡ EngineError.Memory) }
    {
        let mut lines = DocLines::new(self.alloc);
        for (name, entry) in self.catalog.iter() {
            lines.push(DocLine {
                name: Bytes::from_slice(self.alloc, name.as_slice())?,
                nodes: entry.nodes,
            })?;
        }
        Ok(Reply::Names(lines))
    }

    // Lists the rules of the catalog.
    pub(crate) fn rules(&self) -> Result<Reply, EngineError>
        ensures ok { IfOk result (λ reply. reply ≡ Reply.Rules (self.now.catalog).rules) }
        ensures err { IfErr result (λ e. e ≡ EngineError.Memory) }
    {
        let Ok(rules) = self.catalog.matrix().rules() else {
            return Err(EngineError::Memory);
        };
        Ok(Reply::Rules(rules))
    }

    // Gives a document's canonical text.
    pub(crate) fn export<D: Disk>(
        &mut self,
        disk: &mut D,
        name: &Bytes,
    ) -> Result<Reply, EngineError>
        ensures still { IsStill D.Disk disk.old disk.new }
        ensures same { is_ended self.new ≡ false → LeavesStore self.old self.new }
        ensures ok { IfOk result (λ reply. GoesOn self.old self.new × ((state : State) → IsAt D.Disk self.old disk.old state → Step state (command.Export name.now) reply state)) }
        ensures refused { IfErr result (λ e. NotApplied D.Disk e self.old self.new disk.old disk.new) }
    {
        if self.is_ended() {
            return Err(EngineError::Ended);
        }
        let Some(entry) = self.catalog.find(name.as_slice()) else {
            return Ok(Reply::Refused(ReplyError::NoDocument));
        };
        match nx_nav::text_of(self.alloc, &mut self.records, disk, entry.root, entry.nodes) {
            Ok(text) => Ok(Reply::Exported(text)),
            Err(error) => Err(told_by(error)),
        }
    }

    // Gives the node at a path of a document. It reads what `get` of `nx_nav` reads, and nothing where there is no such document.
    pub(crate) fn get<D: Disk>(
        &mut self,
        disk: &mut D,
        name: &Bytes,
        path: &Path,
    ) -> Result<Reply, EngineError>
        ensures still { IsStill D.Disk disk.old disk.new }
        ensures same { is_ended self.new ≡ false → LeavesStore self.old self.new }
        ensures ok { IfOk result (λ reply. GoesOn self.old self.new × ((state : State) → IsAt D.Disk self.old disk.old state → Step state (command.Get name.now path.now) reply state)) }
        ensures refused { IfErr result (λ e. NotApplied D.Disk e self.old self.new disk.old disk.new) }
        ensures reads { ReadsWithin D.Disk (command.Get name.now path.now) self.old disk.old disk.new }
    {
        if self.is_ended() {
            return Err(EngineError::Ended);
        }
        let Some(entry) = self.catalog.find(name.as_slice()) else {
            return Ok(Reply::Refused(ReplyError::NoDocument));
        };
        match nx_nav::get(
            self.alloc,
            &mut self.records,
            disk,
            entry.root,
            path.as_slice(),
        ) {
            Ok(shown) => Ok(Reply::Shown {
                node: shown.node,
                children: shown.children,
            }),
            Err(error) => {
                if is_no_node(error) {
                    return Ok(Reply::Refused(ReplyError::NoNode));
                }
                Err(told_by(error))
            }
        }
    }

    // Lists the intervals in which a document is stored.
    pub(crate) fn layout<D: Disk>(
        &mut self,
        disk: &mut D,
        name: &Bytes,
    ) -> Result<Reply, EngineError>
        ensures still { IsStill D.Disk disk.old disk.new }
        ensures same { is_ended self.new ≡ false → LeavesStore self.old self.new }
        ensures ok { IfOk result (λ reply. GoesOn self.old self.new × ((state : State) → IsAt D.Disk self.old disk.old state → Step state (command.Layout name.now) reply state)) }
        ensures refused { IfErr result (λ e. NotApplied D.Disk e self.old self.new disk.old disk.new) }
    {
        if self.is_ended() {
            return Err(EngineError::Ended);
        }
        let Some(entry) = self.catalog.find(name.as_slice()) else {
            return Ok(Reply::Refused(ReplyError::NoDocument));
        };
        match nx_nav::layout(self.alloc, &mut self.records, disk, entry.root, entry.nodes) {
            Ok(laid) => Ok(Reply::Laid {
                parts: laid.parts,
                weights: laid.weights,
            }),
            Err(error) => Err(told_by(error)),
        }
    }

    // Empties the log. What was changed and never committed is dropped first.
    pub(crate) fn checkpoint<D: Disk>(&mut self, disk: &mut D) -> Result<Reply, EngineError>
        ensures applies { (state : State) → IsAt D.Disk self.old disk.old state → IsSome (D.contents disk.new) → IsApplied D.Disk result state command.Checkpoint self.new disk.old disk.new }
        ensures ok { OnOk result (GoesOn self.old self.new) }
        ensures refused { IfErr result (λ e. NotApplied D.Disk e self.old self.new disk.old disk.new) }
        ensures areas { WritesAlone D.Disk disk.old disk.new (λ _. Unit {0}) }
        ensures leaves { LeavesOthers D.Disk (Single command.Checkpoint) self.old self.new disk.old disk.new }
        ensures holds { OnOk result (HoldsOn D.Disk self.old self.new disk.old disk.new) }
        ensures kept { RefusedHolds D.Disk result self.old self.new disk.old disk.new }
    {
        if self.is_ended() {
            return Err(EngineError::Ended);
        }
        let Ok(()) = self.empty_log(disk) else {
            return Err(EngineError::Disk);
        };
        Ok(Reply::Done)
    }

    // Empties the log of a store that runs. What was changed and never committed is dropped first.
    pub(crate) fn empty_log<D: Disk>(&mut self, disk: &mut D) -> Result<(), EngineError>
        requires runs { is_ended self.old ≡ false }
        ensures goes { WritesAlone D.Disk disk.old disk.new (λ i. (state : State) → IsAt D.Disk self.old disk.old state → IsOf state i) }
        ensures ok { OnOk result ((is_ended self.new ≡ false) × (log_length_of self.new.records ≡ 0)
            × ((state : State) → IsAt D.Disk self.old disk.old state → IsSome (D.contents disk.new) → IsAt D.Disk self.new disk.new state)) }
        ensures log { OnOk result ((state : State) (now : Image) → IsAt D.Disk self.old disk.old state → IsSettled D.Disk disk.new now → image_group_count now ≡ 0) }
        ensures catalog { self.new.catalog ≡ self.old.catalog }
        ensures holds { OnOk result (HoldsOn D.Disk self.old self.new disk.old disk.new) }
        ensures refused { IfErr result (λ e. (e ≡ EngineError.Disk) × Rose (D.faults disk.old) (D.faults disk.new) × EndsNow self.old self.new) }
    {
        self.records.abandon();
        let Ok(()) = self.records.checkpoint(disk) else {
            return Err(EngineError::Disk);
        };
        Ok(())
    }
}
