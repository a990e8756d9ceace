// A store to which the groups of a stream are applied.
ghost use Rattle.std.specs.Prelude.{◌≡◌, ◌≢◌, ◌↔◌, take, ◌^◌, ◌+◌, ◌*◌, ◌-◌, min, ◌<◌, ◌≤◌, ℕ, List, [], ◌++◌, ◌∷◌, length, true, false, Some, Err, IfOk, IfErr, OnOk, OnErr, MatchOption, MatchResult, string_bytes};
ghost use Rattle.nx_host.specs.Disk.{Image, Rose};
ghost use Rattle.nx_host.specs.Host.{IsAtEnd};
ghost use Rattle.nx_host.specs.Input.{most_input};
ghost use Rattle.nx_host.specs.Still.{IsStill, IsSettled};
ghost use Rattle.nx_numbers.specs.Sizes.{entry_size, most_pages};
ghost use Rattle.nx_replay.specs.Log.{Entry, HasMark, entry_pages, replay};
ghost use Rattle.nx_wal.specs.Wal.{IsInStep, length_of, pending};
ghost use Rattle.nx_ship.specs.Applying.{line_for};

use crate::ShipError;
use crate::error::error_of;
use crate::opening::{find_store, following, read_whole_head};
use crate::reader::{Fed, Reader};
use nx_holdings::{Header, read_header};
use nx_host::{Disk, Host};
use nx_wal::{Wal, WalError};
use std::alloc::{AllocError, Global};

// Above so many bytes of the log a checkpoint comes before a group.
const LONG_LOG: u64 = 67_108_864;

// A store, and a reader of a stream whose groups are applied to it. The pages of the group under way wait
// in the log for their commit, and nowhere else.
#[derive(Drop)]
pub(crate) struct Receiver {
    alloc: Global,
    wal: Wal,
    reader: Reader,
    // The number of the last group, none where there is no page.
    last: Option<u64>,
    // How many bytes of the stream the groups took that are in.
    offset: u64,
    // Where pages wait, the log has room for their commit.
    ghost room: { 0 < length (pending wal) → length_of wal ≤ 2 ^ 62 },
}

impl Receiver {
    ghost use Rattle.nx_holdings.specs.declared.header.Header.{Header};
    ghost use Rattle.nx_ship.specs.Next.{IsHeadedBy, IsBase};
    ghost use Rattle.nx_ship.specs.Reading.{page_of};
    ghost use Rattle.nx_ship.specs.Sent.{IsFault, IsCutShort};
    ghost use Rattle.nx_ship.specs.Applying.{IsUnapplied};
    ghost use Rattle.nx_ship.specs.Receiving.{IsTakeFault, LeavesInput, LeavesStream, HasOpened, is_next_number, ReceivesMore, StopsReceiving, TakesSome, KeepsPage, AppliesNone, BeginsGroup, AppliesLast, StopsAtLast, IsGroupKept, IsBaseless, IsBased, CommitsGroup, StopsCommitting, RefusesNumber, EndsStream, IsStreamError};

    // A receiver over the disk, at the beginning of a stream. Nothing is written.
    //
    // Errors: `NotAStore` exactly where there are pages, and page 0 doesn't begin as that of a store; `Damaged`, where it does, and is no header, or
    // pages are lost; `Disk`, only where `faults` rose; `Memory`.
    pub(crate) fn open<D: Disk>(alloc: Global, disk: &mut D) -> Result<Receiver, ShipError>
        ensures still { IsStill D.Disk disk.old disk.new }
        ensures ok { IfOk result (λ r. (was : Image) → IsSettled D.Disk disk.old was → HasOpened D.Disk was r disk.new) }
        ensures err { IfErr result (λ e. (was : Image) → IsSettled D.Disk disk.old was → IsUnapplied was (Err e)) }
        ensures cause { IfErr result (λ e. IsFault D.Disk e disk.old disk.new) }
    {
        let found = find_store(alloc, disk)?;
        match found {
            Some(wal) => Receiver::of_store(alloc, disk, wal),
            None => Receiver::of_none(alloc, disk),
        }
    }

    // A receiver over the store of a log.
    fn of_store<D: Disk>(alloc: Global, disk: &mut D, wal: Wal) -> Result<Receiver, ShipError>
        requires { pending wal ≡ [] }
        ensures still { IsStill D.Disk disk.old disk.new }
        ensures ok { IfOk result (λ r. (was : Image) → IsInStep D.Disk wal disk.old was → HasOpened D.Disk was r disk.new) }
        ensures err { IfErr result (λ e. (was : Image) → IsInStep D.Disk wal disk.old was → HasMark (replay was) → IsUnapplied was (Err e)) }
        ensures cause { IfErr result (λ e. IsFault D.Disk e disk.old disk.new) }
    {
        let mut wal = wal;
        let header = read_whole_head(disk, &mut wal)?;
        Ok(Receiver {
            alloc,
            wal,
            reader: Reader::new(alloc),
            last: Some(header.number),
            offset: 0,
        })
    }

    // A receiver over a disk without a store.
    fn of_none<D: Disk>(alloc: Global, disk: &mut D) -> Result<Receiver, ShipError>
        ensures still { IsStill D.Disk disk.old disk.new }
        ensures ok { IfOk result (λ r. (was : Image) → IsSettled D.Disk disk.old was → HasOpened D.Disk was r disk.new) }
        ensures err { IfErr result (λ e. (was : Image) → IsSettled D.Disk disk.old was → (HasMark (replay was) → ⊥) → IsUnapplied was (Err e)) }
        ensures cause { IfErr result (λ e. IsFault D.Disk e disk.old disk.new) }
    {
        match Wal::create(disk, alloc) {
            Ok(wal) => Ok(Receiver {
                alloc,
                wal,
                reader: Reader::new(alloc),
                last: None,
                offset: 0,
            }),
            Err(WalError::Exists) => Err(ShipError::NotAStore),
            Err(error) => Err(error_of(error)),
        }
    }

    // Takes a piece of the stream, and applies the groups that are whole with it.
    pub(crate) fn take<H: Host>(&mut self, host: &mut H, piece: &[u8]) -> Result<(), ShipError>
        ensures ok { OnOk result (ReceivesMore ⟦<H as Disk>⟧ piece.now self.old self.new host.old host.new) }
        ensures err { IfErr result (λ e. StopsReceiving ⟦<H as Disk>⟧ piece.now e self.old host.old host.new) }
        ensures leaves { LeavesInput ⟦<H as Disk>⟧ host.old host.new }
        ensures cause { IfErr result (λ e. IsTakeFault ⟦<H as Disk>⟧ e host.old host.new) }
    {
        let mut at = 0;
        // A step takes one byte at least.
        for count in 0..piece.len() {
            if at == piece.len() {
                break;
            }
            at += self.step(host, &piece[at..])?;
        }
        Ok(())
    }

    // Takes the first bytes of a piece, and answers how many they are.
    fn step<H: Host>(&mut self, host: &mut H, piece: &[u8]) -> Result<usize, ShipError>
        ensures within { IfOk result (λ n. n ≤ length piece.now) }
        ensures ok { IfOk result (λ n. ReceivesMore ⟦<H as Disk>⟧ (take n piece.now) self.old self.new host.old host.new) }
        ensures some { IfOk result (λ n. TakesSome ⟦<H as Disk>⟧ n piece.now self.old host.old) }
        ensures err { IfErr result (λ e. StopsReceiving ⟦<H as Disk>⟧ piece.now e self.old host.old host.new) }
        ensures leaves { LeavesInput ⟦<H as Disk>⟧ host.old host.new }
        ensures cause { IfErr result (λ e. IsTakeFault ⟦<H as Disk>⟧ e host.old host.new) }
    {
        let fed = self.reader.feed(piece)?;
        match fed {
            Fed::More(taken) => Ok(taken),
            Fed::Page(taken, page) => {
                self.put(host, page)?;
                Ok(taken)
            }
            Fed::Last(taken, page) => {
                self.take_last(host, page)?;
                Ok(taken)
            }
            Fed::NotGood(_) => Err(ShipError::Stream {
                offset: self.offset,
            }),
        }
    }

    // Keeps the page that the reader has, under this number, where its group may be the next one.
    fn put<D: Disk>(&mut self, disk: &mut D, page: u32) -> Result<(), ShipError>
        requires { page < most_pages }
        ensures ok { OnOk result (KeepsPage D.Disk (page_of page self.old.reader) self.old self.new disk.old disk.new) }
        ensures moves { AppliesNone D.Disk self.old disk.old disk.new }
        ensures cut { IfErr result (λ e. IsCutShort e) }
        ensures stays { LeavesStream self.old self.new }
        ensures leaves { LeavesInput D.Disk disk.old disk.new }
        ensures cause { IfErr result (λ e. IsTakeFault D.Disk e disk.old disk.new) }
    {
        match self.check_number() {
            Ok(()) => self.keep(disk, page),
            Err(_) => Ok(()),
        }
    }

    // Makes a page of the group under way wait for its commit.
    fn keep<D: Disk>(&mut self, disk: &mut D, page: u32) -> Result<(), ShipError>
        requires { page < most_pages }
        ensures ok { OnOk result (is_next_number self.old.last self.old.reader.number ≡ true → KeepsPage D.Disk (page_of page self.old.reader) self.old self.new disk.old disk.new) }
        ensures some { OnOk result (pending self.new.wal ≢ []) }
        ensures moves { AppliesNone D.Disk self.old disk.old disk.new }
        ensures cut { IfErr result (λ e. IsCutShort e) }
        ensures stays { LeavesStream self.old self.new }
        ensures leaves { LeavesInput D.Disk disk.old disk.new }
        ensures cause { IfErr result (λ e. IsTakeFault D.Disk e disk.old disk.new) }
    {
        self.begin_group(disk)?;
        match self.wal.put(page, self.reader.page()) {
            Ok(()) => Ok(()),
            Err(error) => Err(error_of(error)),
        }
    }

    // Goes on with the group of which page 0 waits. Where it doesn't, a group begins: what waits is dropped, and a checkpoint comes where
    // the log is long.
    fn begin_group<D: Disk>(&mut self, disk: &mut D) -> Result<(), ShipError>
        ensures ok { OnOk result (BeginsGroup D.Disk self.old self.new disk.old disk.new) }
        ensures room { OnOk result (length_of self.new.wal ≤ 2 ^ 62) }
        ensures moves { AppliesNone D.Disk self.old disk.old disk.new }
        ensures cut { IfErr result (λ e. IsCutShort e) }
        ensures stays { LeavesStream self.old self.new }
        ensures leaves { LeavesInput D.Disk disk.old disk.new }
        ensures cause { IfErr result (λ e. IsTakeFault D.Disk e disk.old disk.new) }
    {
        match self.wal.waiting(0) {
            Some(_) => return Ok(()),
            None => {}
        }
        self.wal.abandon();
        if self.wal.log_length() <= LONG_LOG {
            return Ok(());
        }
        match self.wal.checkpoint(disk) {
            Ok(()) => Ok(()),
            Err(error) => Err(error_of(error)),
        }
    }

    // Refuses the group under way where its number isn't the next.
    fn check_number(&self) -> Result<(), ShipError>
        ensures { MatchResult result (λ _. is_next_number self.now.last self.now.reader.number ≡ true) (λ e. RefusesNumber self.now.last self.now.reader.number e) }
    {
        let number = self.reader.number;
        match self.last {
            None => Ok(()),
            Some(last) => {
                if number == following(last) {
                    Ok(())
                } else if number <= last {
                    Err(ShipError::Repeat { number, last })
                } else {
                    Err(ShipError::Gap { number, last })
                }
            }
        }
    }

    // Takes the last page of a group, which is good, and applies the group or refuses it.
    fn take_last<H: Host>(&mut self, host: &mut H, page: u32) -> Result<(), ShipError>
        requires { page < most_pages }
        ensures ok { OnOk result (AppliesLast ⟦<H as Disk>⟧ (page_of page self.old.reader) self.old self.new host.old host.new) }
        ensures err { IfErr result (λ e. StopsAtLast ⟦<H as Disk>⟧ (page_of page self.old.reader) e self.old host.old host.new) }
        ensures leaves { LeavesInput ⟦<H as Disk>⟧ host.old host.new }
        ensures cause { IfErr result (λ e. IsTakeFault ⟦<H as Disk>⟧ e host.old host.new) }
    {
        self.check_number()?;
        self.keep(host, page)?;
        if self.is_baseless(page) {
            return Err(ShipError::Base {
                number: self.reader.number,
            });
        }
        self.commit(host)
    }

    // Whether there is no page, and the group that waits, whose last page has this number, doesn't hold all pages of a store.
    fn is_baseless(&self, last_page: u32) -> bool
        requires { last_page < most_pages }
        ensures yes { result ≡ true → IsBaseless self.now last_page }
        ensures no { result ≡ false → IsBased self.now last_page }
    {
        match self.last {
            None => !self.is_base(last_page),
            Some(_) => false,
        }
    }

    // Whether the group that waits, whose last page has this number, holds all pages of a store.
    fn is_base(&self, last_page: u32) -> bool
        requires { last_page < most_pages }
        ensures { (es : List Entry) → IsGroupKept self.now last_page es → (result ≡ true) ↔ IsBase (record { number = self.now.reader.number; entries = es }) }
    {
        let Some(header) = self.first_header() else {
            return false;
        };
        are_both(last_page + 1, self.reader.taken, header.pages)
    }

    // The header that waits for its commit, if one does.
    fn first_header(&self) -> Option<Header>
        ensures { MatchOption result ((header : Header) → IsHeadedBy (entry_pages (pending self.now.wal)) header → ⊥) (λ header. IsHeadedBy (entry_pages (pending self.now.wal)) header) }
    {
        match self.wal.waiting(0) {
            Some(first) => read_header(first),
            None => None,
        }
    }

    // Commits the group that waits, and gives its line.
    fn commit<H: Host>(&mut self, host: &mut H) -> Result<(), ShipError>
        requires { pending self.old.wal ≢ [] }
        ensures ok { OnOk result (CommitsGroup ⟦<H as Disk>⟧ self.old self.new host.old host.new) }
        ensures err { OnErr result (StopsCommitting ⟦<H as Disk>⟧ self.old host.old host.new) }
        ensures cut { IfErr result (λ e. IsCutShort e) }
        ensures reader { self.new.reader ≡ self.old.reader }
        ensures offset { OnOk result (self.new.offset ≡ min (self.old.offset + (12 + entry_size * self.old.reader.taken)) (2 ^ 64 - 1)) }
        ensures leaves { LeavesInput ⟦<H as Disk>⟧ host.old host.new }
        ensures cause { IfErr result (λ e. IsTakeFault ⟦<H as Disk>⟧ e host.old host.new) }
    {
        let number = self.reader.number;
        let line = applied_line(self.alloc, number)?;
        match self.wal.commit(host, number) {
            Ok(()) => {}
            Err(error) => return Err(error_of(error)),
        }
        host.emit(line.as_bytes())?;
        self.last = Some(number);
        self.offset = self
            .offset
            .saturating_add(12 + 8_196 * self.reader.taken as u64);
        Ok(())
    }

    // Ends at the end of the stream: with `Stream`, where a group isn't whole.
    pub(crate) fn end(&self) -> Result<(), ShipError>
        ensures ends { EndsStream self.now result }
        ensures stream { IfErr result (λ e. IsStreamError e) }
    {
        if self.reader.is_between() {
            Ok(())
        } else {
            Err(ShipError::Stream {
                offset: self.offset,
            })
        }
    }
}

// Whether both numbers are this one.
fn are_both(one: u32, other: u32, number: u32) -> bool
    ensures { (result ≡ true) ↔ ((one ≡ number) × (other ≡ number)) }
{
    one == number && other == number
}

// The line for a group that is in.
fn applied_line(alloc: Global, number: u64) -> Result<String, AllocError>
    ensures { IfOk result (λ line. string_bytes line ≡ line_for number) }
{
    format!(in alloc; "ok {number}\n")
}
