// Changes of a store by one command, but for the commit. None is made that is refused.
ghost use Rattle.std.specs.Prelude.{◌≡◌, false, true, Some, None, IsTrue, IsSome, IfOk, IfErr, OnOk};
ghost use Rattle.std.specs.FinMap.{get};
ghost use Rattle.nx_host.specs.Still.{IsStill};
ghost use Rattle.nx_records.specs.Words.{Held};
ghost use Rattle.nx_records.specs.Records.{HasChanges};
ghost use Rattle.nx_records.specs.Refusals.{RunsOn};
ghost use Rattle.nx_script.specs.Commands.{CanCome};
ghost use Rattle.nx_pyx.specs.DocumentName.{is_document_name};
ghost use Rattle.nx_matrix.specs.RuleLabels.{HasLabels};
ghost use Rattle.nx_script.specs.declared.command.Command.TheVariants as command;
ghost use Rattle.nx_state.specs.State.{State};
ghost use Rattle.nx_steps.specs.Step.{may_change};
ghost use Rattle.nx_store.specs.Store.{is_ended, IsNow};
ghost use Rattle.nx_store.specs.Staying.{IsLeftBy, RecordsStay, OthersStay, BothStay, AllStay};
ghost use Rattle.nx_store.specs.Changing.{PreparesNow, PreparesNext, NotPrepared, RuleNotPrepared, RenameNotPrepared, IsStoreCause, IsRuleCause};

use crate::edits::EditBody;
use crate::error::{told_error, told_removal};
use crate::{EngineError, Store};
use nx_catalog::RuleError;
use nx_edit::remove_document;
use nx_hold::DocEntry;
use nx_host::Disk;
use nx_matrix::Rule;
use nx_records::StoreError;
use nx_script::{Command, Reply, ReplyError, push_reply};
use nx_tree::Bytes;
use std::thread::Threads;

impl Store {
    // Carries out a command that may change the store but for the commit, behind whatever waits for it. Adds the text of its reply.
    pub(crate) fn prepare_change<R: Threads + Sync, D: Disk>(
        &mut self,
        rt: &R,
        disk: &mut D,
        command: Command,
        text: &mut Bytes,
    ) -> Result<Result<Reply, ReplyError>, EngineError>
        requires runs { is_ended self.old ≡ false }
        requires come { CanCome command }
        requires may { may_change command ≡ true }
        ensures still { IsStill D.Disk disk.old disk.new }
        ensures ok { IfOk result (λ made. PreparesNext D.Disk command made text.old text.new self.old self.new disk.old disk.new) }
        ensures refused { IfErr result (λ e. NotPrepared D.Disk e self.old self.new disk.old disk.new) }
    {
        match command {
            Command::Load { name, body } => self.load_next(rt, disk, &name, body, text),
            Command::SetRule { rule } => self.set_rule_next(disk, &rule, text),
            Command::Discard { name } => self.discard_next(disk, &name, text),
            Command::Rename { old, new } => self.rename_next(disk, &old, &new, text),
            Command::Delete { name, path } => {
                self.edit_next(disk, &name, path, EditBody::Delete, text)
            }
            Command::Retext {
                name,
                path,
                text: body,
            } => { self.edit_next(disk, &name, path, EditBody::Retext(body), text) }
            Command::Insert { name, path, line } => {
                self.edit_next(disk, &name, path, EditBody::Insert(line), text)
            }
            Command::Names
            | Command::Export { .. }
            | Command::Get { .. }
            | Command::Layout { .. }
            | Command::Rules
            | Command::Checkpoint
            | Command::Begin { .. }
            | Command::Commit
            | Command::Bad => unreachable!(),
        }
    }

    // Makes a rule.
    fn set_rule_next<D: Disk>(
        &mut self,
        disk: &mut D,
        rule: &Rule,
        text: &mut Bytes,
    ) -> Result<Result<Reply, ReplyError>, EngineError>
        requires runs { is_ended self.old ≡ false }
        requires labels { HasLabels rule.now }
        ensures still { IsStill D.Disk disk.old disk.new }
        ensures ok { IfOk result (λ made. PreparesNext D.Disk (command.SetRule rule.now) made text.old text.new self.old self.new disk.old disk.new) }
        ensures refused { IfErr result (λ e. NotPrepared D.Disk e self.old self.new disk.old disk.new) }
    {
        push_reply(text, &Reply::Done)?;
        match self.prepare_rule(disk, rule) {
            Ok(()) => Ok(Ok(Reply::Done)),
            Err(error) => rule_cause(error),
        }
    }

    // ... in the records and the catalog. Where this fails the catalog is as it was.
    fn prepare_rule<D: Disk>(&mut self, disk: &mut D, rule: &Rule) -> Result<(), RuleError>
        requires runs { is_ended self.old ≡ false }
        requires labels { HasLabels rule.now }
        ensures still { IsStill D.Disk disk.old disk.new }
        ensures runs { OnOk result (RunsOn self.old.records self.new.records × HasChanges self.new.records) }
        ensures ok { OnOk result ((saved : Held) (state : State) (at : IsNow D.Disk self.old disk.old saved state) → (made : PreparesNow D.Disk saved state (command.SetRule rule.now) Reply.Done self.new disk.new)
            × RecordsStay (IsLeftBy (command.SetRule rule.now)) (at.state_is).stored at.held (made.now).held × AllStay (at.state_is).stored ((made.now).state_is).stored) }
        ensures refused { IfErr result (λ e. RuleNotPrepared D.Disk (command.SetRule rule.now) e self.old self.new disk.old disk.new) }
    {
        self.catalog.save_rule(&mut self.records, disk, rule)?;
        Ok(())
    }

    // Takes a document away.
    fn discard_next<D: Disk>(
        &mut self,
        disk: &mut D,
        name: &Bytes,
        text: &mut Bytes,
    ) -> Result<Result<Reply, ReplyError>, EngineError>
        requires runs { is_ended self.old ≡ false }
        ensures still { IsStill D.Disk disk.old disk.new }
        ensures ok { IfOk result (λ made. PreparesNext D.Disk (command.Discard name.now) made text.old text.new self.old self.new disk.old disk.new) }
        ensures refused { IfErr result (λ e. NotPrepared D.Disk e self.old self.new disk.old disk.new) }
    {
        let Some(entry) = self.catalog.find(name.as_slice()) else {
            return Ok(Err(ReplyError::NoDocument));
        };
        push_reply(text, &Reply::Done)?;
        match self.prepare_discard(disk, name, entry) {
            Ok(()) => Ok(Ok(Reply::Done)),
            Err(error) => Err(error),
        }
    }

    // ... in the records and the catalog. Where this fails the catalog is as it was.
    fn prepare_discard<D: Disk>(
        &mut self,
        disk: &mut D,
        name: &Bytes,
        entry: DocEntry,
    ) -> Result<(), EngineError>
        requires runs { is_ended self.old ≡ false }
        requires found { get (self.old.catalog).documents name.now ≡ Some entry }
        ensures still { IsStill D.Disk disk.old disk.new }
        ensures runs { OnOk result (RunsOn self.old.records self.new.records × HasChanges self.new.records) }
        ensures ok { OnOk result ((saved : Held) (state : State) (at : IsNow D.Disk self.old disk.old saved state) → (made : PreparesNow D.Disk saved state (command.Discard name.now) Reply.Done self.new disk.new)
            × RecordsStay (IsLeftBy (command.Discard name.now)) (at.state_is).stored at.held (made.now).held × OthersStay name.now (at.state_is).stored ((made.now).state_is).stored) }
        ensures refused { IfErr result (λ e. NotPrepared D.Disk e self.old self.new disk.old disk.new) }
    {
        match remove_document(self.alloc, &mut self.records, disk, entry) {
            Ok(()) => {}
            Err(error) => return Err(told_removal(error)),
        }
        match self
            .catalog
            .save_removed(&mut self.records, disk, name.as_slice())
        {
            Ok(()) => Ok(()),
            Err(error) => Err(told_error(error)),
        }
    }

    // Puts a document under another name.
    fn rename_next<D: Disk>(
        &mut self,
        disk: &mut D,
        old: &Bytes,
        new: &Bytes,
        text: &mut Bytes,
    ) -> Result<Result<Reply, ReplyError>, EngineError>
        requires runs { is_ended self.old ≡ false }
        requires named { IsTrue (is_document_name new.now) }
        ensures still { IsStill D.Disk disk.old disk.new }
        ensures ok { IfOk result (λ made. PreparesNext D.Disk (command.Rename old.now new.now) made text.old text.new self.old self.new disk.old disk.new) }
        ensures refused { IfErr result (λ e. NotPrepared D.Disk e self.old self.new disk.old disk.new) }
    {
        let Some(_) = self.catalog.find(old.as_slice()) else {
            return Ok(Err(ReplyError::NoDocument));
        };
        if self.catalog.find(new.as_slice()).is_some() {
            return Ok(Err(ReplyError::Exists));
        }
        push_reply(text, &Reply::Done)?;
        match self.prepare_rename(disk, old, new) {
            Ok(()) => Ok(Ok(Reply::Done)),
            Err(error) => store_cause(error),
        }
    }

    // ... in the catalog. Where this fails it is as it was.
    fn prepare_rename<D: Disk>(
        &mut self,
        disk: &mut D,
        old: &Bytes,
        new: &Bytes,
    ) -> Result<(), StoreError>
        requires runs { is_ended self.old ≡ false }
        requires named { IsTrue (is_document_name new.now) }
        requires there { IsSome (get (self.old.catalog).documents old.now) }
        requires new { get (self.old.catalog).documents new.now ≡ None }
        ensures still { IsStill D.Disk disk.old disk.new }
        ensures runs { OnOk result (RunsOn self.old.records self.new.records × HasChanges self.new.records) }
        ensures ok { OnOk result ((saved : Held) (state : State) (at : IsNow D.Disk self.old disk.old saved state) → (made : PreparesNow D.Disk saved state (command.Rename old.now new.now) Reply.Done self.new disk.new)
            × RecordsStay (IsLeftBy (command.Rename old.now new.now)) (at.state_is).stored at.held (made.now).held × BothStay old.now new.now (at.state_is).stored ((made.now).state_is).stored) }
        ensures refused { IfErr result (λ e. RenameNotPrepared D.Disk (command.Rename old.now new.now) e self.old self.new disk.old disk.new) }
    {
        self.catalog
            .save_renamed(&mut self.records, disk, old.as_slice(), new.as_slice())?;
        Ok(())
    }
}

// What is told of a command that the records gave up.
pub(crate) fn store_cause(error: StoreError) -> Result<Result<Reply, ReplyError>, EngineError>
    ensures { IsStoreCause error result }
{
    match error {
        StoreError::Full => Ok(Err(ReplyError::Full)),
        StoreError::Memory => Err(EngineError::Memory),
        StoreError::Disk => Err(EngineError::Disk),
        StoreError::Damaged { page } => Err(EngineError::Damaged { page }),
        StoreError::Ended => Err(EngineError::Ended),
        StoreError::Exists => Err(EngineError::Exists),
        StoreError::NotAStore => Err(EngineError::NotAStore),
    }
}

// What is told of a rule that wasn't prepared.
fn rule_cause(error: RuleError) -> Result<Result<Reply, ReplyError>, EngineError>
    ensures { IsRuleCause error result }
{
    match error {
        RuleError::TooManyRules => Ok(Err(ReplyError::TooManyRules)),
        RuleError::Store(error) => store_cause(error),
    }
}
