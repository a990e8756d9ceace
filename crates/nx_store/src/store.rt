// The store.
ghost use Rattle.std.specs.Prelude.{◌≡◌, ◌⊎◌, ℕ, List, true, false, Some, None, IsSome, IfOk, IfErr, OnOk};
ghost use Rattle.nx_host.specs.Disk.{Image};
ghost use Rattle.nx_host.specs.Still.{IsStill, IsSettled, WritesAlone};
ghost use Rattle.nx_records.specs.Words.{HasSame, AreSettings, IsRenewed};
ghost use Rattle.nx_records.specs.Records.{HasHeader, IsInStepWith};
ghost use Rattle.nx_records.specs.Refusals.{IsNewStore, NotCreated};
ghost use Rattle.nx_script.specs.Commands.{CanCome};
ghost use Rattle.nx_state.specs.State.{State, new_state};
ghost use Rattle.nx_state.specs.Stands.{Recovers};
ghost use Rattle.nx_steps.specs.Step.{may_change};
ghost use Rattle.nx_script.specs.Requests.{CanComeRequest};
ghost use Rattle.nx_steps.specs.Requests.{may_change_request};

use crate::EngineError;
use crate::error::{told_by, told_error};
use nx_catalog::{Catalog, load_catalog};
use nx_host::{Disk, Host};
use nx_records::{Records, Settings};
use nx_script::{Command, Reply, ReplyError, Request, push_reply, write_reply};
use nx_steps::may_change;
use nx_tree::Bytes;
use std::alloc::Global;
use std::thread::Threads;

/// A store of documents.
#[derive(Drop)]
pub struct Store {
    pub(crate) alloc: Global,
    pub(crate) records: Records,
    // The catalog of the last commit.
    pub(crate) catalog: Catalog,
}

impl Store {
    ghost use Rattle.nx_host.specs.declared.disk.Disk.{Ghosts};
    ghost use Rattle.nx_script.specs.declared.reply.Reply.{Reply};
    ghost use Rattle.nx_nav.specs.Given.{AsksAndGives};
    ghost use Rattle.nx_store.specs.Reads.{ReadsOpening, needs_no_page, needs_no_page_request, ReadsWithin, ReadsToFirst};
    ghost use Rattle.nx_store.specs.Staying.{LeavesOthers};
    ghost use Rattle.nx_store.specs.Changing.{IsCarriedWithText};
    ghost use Rattle.nx_store.specs.Store.{is_ended, HoldsOn, RefusedHolds, LeavesStore, IsAt, IsApplied, IsAnswered, IsExported, GoesOn, TakesNone, NotApplied, NotAnswered, NotMade, NotOpened};

    /// A store on a disk that has no pages, committed: with these settings, and without documents and
    /// rules. The settings are in range: K from 1 to 256, a target of at most 100, a tolerance of at most
    /// 256, and a limit from 64 to 16,777,216 pages.
    ///
    /// Errors: `Exists` exactly where the disk has a page; `Disk`, only where `faults` rose; `Memory`.
    pub fn create<D: Disk>(
        alloc: Global,
        disk: &mut D,
        settings: Settings,
    ) -> Result<Store, EngineError>
        requires { AreSettings settings }
        ensures goes { WritesAlone D.Disk disk.old disk.new (λ i. (was : Image) → IsSettled D.Disk disk.old was → HasSame was i ⊎ IsNewStore settings was i) }
        ensures ok { IfOk result (λ store. (was now : Image) → IsSettled D.Disk disk.old was → D.contents disk.new ≡ Some now →
            IsAt D.Disk store disk.new (new_state settings) × IsSettled D.Disk disk.new now × IsNewStore settings was now) }
        ensures fresh { IfOk result (λ store. is_ended store ≡ false) }
        ensures refused { IfErr result (λ e. NotMade D.Disk e disk.old disk.new) }
    {
        let records = match Records::create(alloc, disk, settings) {
            Ok(records) => records,
            Err(error) => return Err(told_error(error)),
        };
        Ok(Store {
            alloc,
            records,
            catalog: Catalog::new(alloc),
        })
    }

    /// As `open_to_read`, for a session that may commit: it renews what `Wal::open` renews, before anything is
    /// built on it.
    ///
    /// Errors: as `open_to_read`.
    pub fn open<D: Disk>(alloc: Global, disk: &mut D) -> Result<Store, EngineError>
        ensures still { IsStill D.Disk disk.old disk.new }
        ensures ok { IfOk result (λ store. (was : Image) (state : State) → IsSettled D.Disk disk.old was → Recovers was (Some state) → IsAt D.Disk store disk.new state) }
        ensures fresh { IfOk result (λ store. is_ended store ≡ false) }
        ensures marked { OnOk result ((was : Image) → IsSettled D.Disk disk.old was → HasHeader was) }
        ensures reads { (was : Image) → IsSettled D.Disk disk.old was → ReadsOpening was (D.reads disk.old) (D.reads disk.new) }
        ensures renewed { OnOk result (IsRenewed D.Disk disk.old disk.new) }
        ensures refused { IfErr result (λ e. NotOpened D.Disk e disk.old disk.new) }
    {
        let mut store = match Store::open_to_read(alloc, disk) {
            Ok(store) => store,
            Err(error) => return Err(error),
        };
        let Ok(_) = store.records.renew(disk) else {
            return Err(EngineError::Disk);
        };
        Ok(store)
    }

    /// The store of a disk, for a session that only reads. Nothing is written. It reads the log by its heads and page numbers, page 0 and the chain pages
    /// of the catalog, and no page of a document: where the pages are sound, or there is no store, at most three times for each
    /// 8,196 bytes that the log's area has, and as often for a rest, twice for page 0, and once for each chain page.
    ///
    /// Errors: `NotAStore` exactly where page 0 is missing or doesn't begin with the eight bytes
    /// `NATIXST1`; `Damaged`, only where the disk stands for no state, so also where the pages area has no
    /// page and the log lacks one of those that the header says; `Disk`, only where `faults` rose;
    /// `Memory`.
    pub fn open_to_read<D: Disk>(alloc: Global, disk: &mut D) -> Result<Store, EngineError>
        ensures still { IsStill D.Disk disk.old disk.new }
        ensures ok { IfOk result (λ store. (was : Image) (state : State) → IsSettled D.Disk disk.old was → Recovers was (Some state) → IsAt D.Disk store disk.new state) }
        ensures step { IfOk result (λ store. (was : Image) → IsSettled D.Disk disk.old was → IsInStepWith D.Disk store.records disk.new was) }
        ensures fresh { IfOk result (λ store. is_ended store ≡ false) }
        ensures marked { OnOk result ((was : Image) → IsSettled D.Disk disk.old was → HasHeader was) }
        ensures reads { (was : Image) → IsSettled D.Disk disk.old was → ReadsOpening was (D.reads disk.old) (D.reads disk.new) }
        ensures refused { IfErr result (λ e. NotOpened D.Disk e disk.old disk.new) }
    {
        let mut records = match Records::open_to_read(alloc, disk) {
            Ok(records) => records,
            Err(error) => return Err(told_error(error)),
        };
        let catalog = match load_catalog(alloc, &mut records, disk) {
            Ok(catalog) => catalog,
            Err(error) => return Err(told_error(error)),
        };
        Ok(Store {
            alloc,
            records,
            catalog,
        })
    }

    /// Whether an earlier call answered `Disk` or `Damaged`. It takes no memory.
    pub fn is_ended(&self) -> bool
        ensures { result ≡ is_ended self.now }
    {
        self.records.is_ended()
    }

    /// Carries a command out, and gives its reply. A command that is refused changes nothing. One that
    /// changes the store does so by one commit: at every moment each image is that of the state before it
    /// or of the state after it, and then the log of each has one group more. Where the log is longer than
    /// 67,108,864 bytes, a checkpoint comes first, so that this group is alone. Once `checkpoint` was answered the
    /// log of no image has a group. All memory is taken before the commit. A command that is refused, or for which
    /// there is no memory, leaves all that is held, and the log, but for that checkpoint. One that may not change the
    /// store, and is no `checkpoint`, leaves the disk's image.
    ///
    /// An edit leaves each record of its document that holds neither a node on the way along the path nor one of a
    /// tree that it deletes, and all records of the other documents, each with its place, bytes and list. A `drop`
    /// leaves all records of the others, and each other command all that were there. One that changes nothing leaves all that is held.
    ///
    /// From a state that the store is at, a `get` reads, however it ends, no pages but those that `get` of `nx_nav` may read from
    /// the root of its document on, and none where there is no such document. `names`, `rules` and a line that is no command read none.
    ///
    /// The command is one that a script can give.
    ///
    /// Errors: `Disk`, only where `faults` rose; `Damaged`, only where the disk stood for no state when the
    /// store was opened; `Ended` exactly where an earlier call answered one of these; `Memory`, and then the
    /// store is as it was.
    pub fn apply<R: Threads + Sync, D: Disk>(
        &mut self,
        rt: &R,
        disk: &mut D,
        command: Command,
    ) -> Result<Reply, EngineError>
        requires { CanCome command }
        ensures applies { (state : State) → IsAt D.Disk self.old disk.old state → IsSome (D.contents disk.new) → IsApplied D.Disk result state command self.new disk.old disk.new }
        ensures ok { OnOk result (GoesOn self.old self.new) }
        ensures refused { IfErr result (λ e. NotApplied D.Disk e self.old self.new disk.old disk.new) }
        ensures areas { WritesAlone D.Disk disk.old disk.new (λ _. Unit {0}) }
        ensures leaves { LeavesOthers D.Disk (Request.Single command) self.old self.new disk.old disk.new }
        ensures holds { may_change command ≡ false → OnOk result (HoldsOn D.Disk self.old self.new disk.old disk.new) }
        ensures kept { RefusedHolds D.Disk result self.old self.new disk.old disk.new }
        ensures reads { ReadsWithin D.Disk command self.old disk.old disk.new }
        ensures unread { needs_no_page command ≡ true → D.reads disk.new ≡ D.reads disk.old }
    {
        if self.is_ended() {
            return Err(EngineError::Ended);
        }
        if may_change(&command) {
            let (reply, _) = self.change(rt, disk, command)?;
            return Ok(reply);
        }
        self.look(disk, command)
    }

    // Carries out a command that leaves what is stored.
    fn look<D: Disk>(&mut self, disk: &mut D, command: Command) -> Result<Reply, EngineError>
        requires runs { is_ended self.old ≡ false }
        requires quiet { may_change command ≡ false }
        ensures applies { (state : State) → IsAt D.Disk self.old disk.old state → IsSome (D.contents disk.new) → IsApplied D.Disk result state command self.new disk.old disk.new }
        ensures ok { OnOk result (GoesOn self.old self.new) }
        ensures refused { IfErr result (λ e. NotApplied D.Disk e self.old self.new disk.old disk.new) }
        ensures areas { WritesAlone D.Disk disk.old disk.new (λ _. Unit {0}) }
        ensures leaves { LeavesOthers D.Disk (Request.Single command) self.old self.new disk.old disk.new }
        ensures holds { OnOk result (HoldsOn D.Disk self.old self.new disk.old disk.new) }
        ensures kept { RefusedHolds D.Disk result self.old self.new disk.old disk.new }
        ensures reads { ReadsWithin D.Disk command self.old disk.old disk.new }
        ensures unread { needs_no_page command ≡ true → D.reads disk.new ≡ D.reads disk.old }
    {
        match command {
            Command::Names => self.names(),
            Command::Export { name } => self.export(disk, &name),
            Command::Get { name, path } => self.get(disk, &name, &path),
            Command::Layout { name } => self.layout(disk, &name),
            Command::Rules => self.rules(),
            Command::Checkpoint => self.checkpoint(disk),
            Command::Begin { .. } => Ok(Reply::Refused(ReplyError::Syntax)),
            Command::Commit => Ok(Reply::Refused(ReplyError::Syntax)),
            Command::Bad => Ok(Reply::Refused(ReplyError::Syntax)),
            Command::Load { .. }
            | Command::Discard { .. }
            | Command::Rename { .. }
            | Command::Insert { .. }
            | Command::Delete { .. }
            | Command::Retext { .. }
            | Command::SetRule { .. } => unreachable!(),
        }
    }

    /// Carries a request out, and gives its answer's text to the output, behind the commit and whole. All memory of the
    /// text is taken before the commit too. But an `export` is given record by record, as by `export_into`: where the
    /// output is as it was, whatever is answered, it read no more than a `get` of the document's first child may.
    ///
    /// A command by itself is carried out as by `apply`. A transaction carries its commands out one after the other, each in the
    /// state that those before it left, and commits once, behind the last: at every moment each image is that of the state before
    /// the first or of the state behind the last, and then the log of each has one group more. Where one is refused, or there is no
    /// memory, nothing is committed, and the store holds what it held. A command that may not change the store is refused. All
    /// records stay of documents that none of the commands names. One without commands reads no page.
    ///
    /// The request is one that a script can give.
    ///
    /// Errors: those of `apply`, and nothing is given then, but that a first part of an export may be; `Write`, only where `out_faults` rose, and then the
    /// request was carried out, and a first part of the text may be out.
    pub fn answer<R: Threads + Sync, H: Host>(
        &mut self,
        rt: &R,
        host: &mut H,
        request: Request,
    ) -> Result<(), EngineError>
        requires { CanComeRequest request }
        ensures answers { (state : State) → IsAt ⟦<H as Disk>⟧ self.old host.old state → IsSome (H.contents host.new) → IsAnswered ⟦<H as Disk>⟧ result state request self.old self.new host.old host.new }
        ensures ok { OnOk result (GoesOn self.old self.new) }
        ensures refused { IfErr result (λ e. NotAnswered ⟦<H as Disk>⟧ e self.old self.new host.old host.new) }
        ensures beside { TakesNone ⟦<H as Disk>⟧ host.old host.new }
        ensures leaves { LeavesOthers ⟦<H as Disk>⟧ request self.old self.new host.old host.new }
        ensures holds { may_change_request request ≡ false → OnOk result (HoldsOn ⟦<H as Disk>⟧ self.old self.new host.old host.new) }
        ensures reads { (command : Command) → request ≡ Request.Single command → ReadsWithin ⟦<H as Disk>⟧ command self.old host.old host.new }
        ensures unread { needs_no_page_request request ≡ true → H.reads host.new ≡ H.reads host.old }
        ensures early { (name : List ℕ) → request ≡ Request.Single (Command.Export name) → ReadsToFirst ⟦<H as Disk>⟧ name self.old host.old host.new }
    {
        match request {
            Request::Single(command) => self.answer_one(rt, host, command),
            Request::Transaction(commands) => {
                self.answer_whole(rt, host, Request::Transaction(commands))
            }
        }
    }

    // ... of a command by itself.
    fn answer_one<R: Threads + Sync, H: Host>(
        &mut self,
        rt: &R,
        host: &mut H,
        command: Command,
    ) -> Result<(), EngineError>
        requires { CanCome command }
        ensures answers { (state : State) → IsAt ⟦<H as Disk>⟧ self.old host.old state → IsSome (H.contents host.new) → IsAnswered ⟦<H as Disk>⟧ result state (Request.Single command) self.old self.new host.old host.new }
        ensures ok { OnOk result (GoesOn self.old self.new) }
        ensures refused { IfErr result (λ e. NotAnswered ⟦<H as Disk>⟧ e self.old self.new host.old host.new) }
        ensures beside { TakesNone ⟦<H as Disk>⟧ host.old host.new }
        ensures leaves { LeavesOthers ⟦<H as Disk>⟧ (Request.Single command) self.old self.new host.old host.new }
        ensures holds { may_change command ≡ false → OnOk result (HoldsOn ⟦<H as Disk>⟧ self.old self.new host.old host.new) }
        ensures reads { ReadsWithin ⟦<H as Disk>⟧ command self.old host.old host.new }
        ensures unread { needs_no_page command ≡ true → H.reads host.new ≡ H.reads host.old }
        ensures early { (name : List ℕ) → command ≡ Command.Export name → ReadsToFirst ⟦<H as Disk>⟧ name self.old host.old host.new }
    {
        match command {
            Command::Export { name } => self.answer_export(host, name.as_slice()),
            command => self.answer_whole(rt, host, Request::Single(command)),
        }
    }

    // ... of any other request, whole.
    fn answer_whole<R: Threads + Sync, H: Host>(
        &mut self,
        rt: &R,
        host: &mut H,
        request: Request,
    ) -> Result<(), EngineError>
        requires { CanComeRequest request }
        ensures answers { (state : State) → IsAt ⟦<H as Disk>⟧ self.old host.old state → IsSome (H.contents host.new) → IsAnswered ⟦<H as Disk>⟧ result state request self.old self.new host.old host.new }
        ensures ok { OnOk result (GoesOn self.old self.new) }
        ensures refused { IfErr result (λ e. NotAnswered ⟦<H as Disk>⟧ e self.old self.new host.old host.new) }
        ensures beside { TakesNone ⟦<H as Disk>⟧ host.old host.new }
        ensures leaves { LeavesOthers ⟦<H as Disk>⟧ request self.old self.new host.old host.new }
        ensures holds { may_change_request request ≡ false → OnOk result (HoldsOn ⟦<H as Disk>⟧ self.old self.new host.old host.new) }
        ensures reads { (command : Command) → request ≡ Request.Single command → ReadsWithin ⟦<H as Disk>⟧ command self.old host.old host.new }
        ensures unread { needs_no_page_request request ≡ true → H.reads host.new ≡ H.reads host.old }
    {
        let text = self.text_for(rt, host, request)?;
        let Ok(()) = host.emit(text.as_slice()) else {
            return Err(EngineError::Write);
        };
        Ok(())
    }

    // ... of an export, record by record.
    fn answer_export<H: Host>(&mut self, host: &mut H, name: &[u8]) -> Result<(), EngineError>
        ensures answers { (state : State) → IsAt ⟦<H as Disk>⟧ self.old host.old state → IsSome (H.contents host.new) → IsAnswered ⟦<H as Disk>⟧ result state (Request.Single (Command.Export name.now)) self.old self.new host.old host.new }
        ensures ok { OnOk result (GoesOn self.old self.new) }
        ensures refused { IfErr result (λ e. NotAnswered ⟦<H as Disk>⟧ e self.old self.new host.old host.new) }
        ensures beside { TakesNone ⟦<H as Disk>⟧ host.old host.new }
        ensures leaves { LeavesOthers ⟦<H as Disk>⟧ (Request.Single (Command.Export name.now)) self.old self.new host.old host.new }
        ensures holds { OnOk result (HoldsOn ⟦<H as Disk>⟧ self.old self.new host.old host.new) }
        ensures early { ReadsToFirst ⟦<H as Disk>⟧ name.now self.old host.old host.new }
    {
        let mut block = Bytes::new(self.alloc);
        self.export_into(host, name, &mut block)?;
        let Ok(()) = host.emit(block.as_slice()) else {
            return Err(EngineError::Write);
        };
        Ok(())
    }

    /// Gives what the block has, and behind it the reply to an `export` of this document as `answer` does, but
    /// record by record, and but for a last part, which is left in the block. A block and what is told between two
    /// records are in memory at once. Where the output is as it was, whatever is answered, it read no more than a `get` of the document's first
    /// child may.
    ///
    /// Errors: those of `answer`. The block is of no use then.
    pub fn export_into<H: Host>(
        &mut self,
        host: &mut H,
        name: &[u8],
        block: &mut Bytes,
    ) -> Result<(), EngineError>
        ensures exports { (state : State) → IsAt ⟦<H as Disk>⟧ self.old host.old state → IsSome (H.contents host.new) →
            IsExported ⟦<H as Disk>⟧ result state name.now block.old block.new self.new host.old host.new }
        ensures ok { OnOk result (GoesOn self.old self.new) }
        ensures same { is_ended self.new ≡ false → LeavesStore self.old self.new }
        ensures refused { IfErr result (λ e. NotAnswered ⟦<H as Disk>⟧ e self.old self.new host.old host.new) }
        ensures beside { TakesNone ⟦<H as Disk>⟧ host.old host.new }
        ensures areas { AsksAndGives ⟦<H as Disk>⟧ host.old host.new }
        ensures early { ReadsToFirst ⟦<H as Disk>⟧ name.now self.old host.old host.new }
    {
        if self.is_ended() {
            return Err(EngineError::Ended);
        }
        let Some(entry) = self.catalog.find(name) else {
            push_reply(block, &Reply::Refused(ReplyError::NoDocument))?;
            return Ok(());
        };
        match nx_nav::export(
            self.alloc,
            &mut self.records,
            host,
            entry.root,
            entry.nodes,
            block,
        ) {
            Ok(()) => {}
            Err(error) => return Err(told_by(error)),
        }
        block.extend_from_slice(b".\n")?;
        Ok(())
    }

    // Carries a request out, and gives the text of its answer, whose memory is taken before the commit.
    fn text_for<R: Threads + Sync, D: Disk>(
        &mut self,
        rt: &R,
        disk: &mut D,
        request: Request,
    ) -> Result<Bytes, EngineError>
        requires { CanComeRequest request }
        ensures writes { (state : State) → IsAt D.Disk self.old disk.old state → IsSome (D.contents disk.new) → IsCarriedWithText D.Disk result state request self.old self.new disk.old disk.new }
        ensures ok { OnOk result (GoesOn self.old self.new) }
        ensures refused { IfErr result (λ e. NotApplied D.Disk e self.old self.new disk.old disk.new) }
        ensures areas { WritesAlone D.Disk disk.old disk.new (λ _. Unit {0}) }
        ensures leaves { LeavesOthers D.Disk request self.old self.new disk.old disk.new }
        ensures holds { may_change_request request ≡ false → OnOk result (HoldsOn D.Disk self.old self.new disk.old disk.new) }
        ensures reads { (command : Command) → request ≡ Request.Single command → ReadsWithin D.Disk command self.old disk.old disk.new }
        ensures unread { needs_no_page_request request ≡ true → D.reads disk.new ≡ D.reads disk.old }
    {
        if self.is_ended() {
            return Err(EngineError::Ended);
        }
        match request {
            Request::Single(command) => self.text_of(rt, disk, command),
            Request::Transaction(commands) => self.transact(rt, disk, commands),
        }
    }

    // ... of a command by itself.
    fn text_of<R: Threads + Sync, D: Disk>(
        &mut self,
        rt: &R,
        disk: &mut D,
        command: Command,
    ) -> Result<Bytes, EngineError>
        requires runs { is_ended self.old ≡ false }
        requires come { CanCome command }
        ensures writes { (state : State) → IsAt D.Disk self.old disk.old state → IsSome (D.contents disk.new) → IsCarriedWithText D.Disk result state (Request.Single command) self.old self.new disk.old disk.new }
        ensures ok { OnOk result (GoesOn self.old self.new) }
        ensures refused { IfErr result (λ e. NotApplied D.Disk e self.old self.new disk.old disk.new) }
        ensures areas { WritesAlone D.Disk disk.old disk.new (λ _. Unit {0}) }
        ensures leaves { LeavesOthers D.Disk (Request.Single command) self.old self.new disk.old disk.new }
        ensures holds { may_change command ≡ false → OnOk result (HoldsOn D.Disk self.old self.new disk.old disk.new) }
        ensures reads { ReadsWithin D.Disk command self.old disk.old disk.new }
        ensures unread { needs_no_page command ≡ true → D.reads disk.new ≡ D.reads disk.old }
    {
        if may_change(&command) {
            let (_, text) = self.change(rt, disk, command)?;
            return Ok(text);
        }
        self.text_behind(disk, command)
    }

    // ... for a command that leaves what is stored. The text is made when it is done.
    fn text_behind<D: Disk>(&mut self, disk: &mut D, command: Command) -> Result<Bytes, EngineError>
        requires runs { is_ended self.old ≡ false }
        requires quiet { may_change command ≡ false }
        ensures writes { (state : State) → IsAt D.Disk self.old disk.old state → IsSome (D.contents disk.new) → IsCarriedWithText D.Disk result state (Request.Single command) self.old self.new disk.old disk.new }
        ensures ok { OnOk result (GoesOn self.old self.new) }
        ensures refused { IfErr result (λ e. NotApplied D.Disk e self.old self.new disk.old disk.new) }
        ensures areas { WritesAlone D.Disk disk.old disk.new (λ _. Unit {0}) }
        ensures leaves { LeavesOthers D.Disk (Request.Single command) self.old self.new disk.old disk.new }
        ensures holds { OnOk result (HoldsOn D.Disk self.old self.new disk.old disk.new) }
        ensures reads { ReadsWithin D.Disk command self.old disk.old disk.new }
        ensures unread { needs_no_page command ≡ true → D.reads disk.new ≡ D.reads disk.old }
    {
        let reply = self.look(disk, command)?;
        let text = write_reply(self.alloc, &reply)?;
        Ok(text)
    }
}
