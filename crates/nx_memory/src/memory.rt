// Areas, an input and an output in memory, with the history of what changed them.
ghost use Rattle.std.specs.Prelude.{◌≡◌, ◌≢◌, ℕ, ◌+◌, ◌*◌, ◌^◌, ◌<◌, ◌≤◌, ◌-◌, min, [], ◌++◌, ◌∷◌, length, take, drop, reverse, IfOk, IsTrue, IsFalse, ◌↔◌, true, false};
ghost use Rattle.nx_host.specs.Disk.{WritesTo, area_of, given_at};
ghost use Rattle.nx_memory.specs.History.{IsHistory, covers};
ghost use Rattle.nx_memory.specs.Writing.{Wrote};
ghost use Rattle.nx_memory.specs.Laws.{history_is_prop};

use crate::crash::area_left;
use crate::history::{Change, History};
use crate::image::{Choice, Image};
use crate::reserved::Reserved;
use crate::source::Source;
use nx_host::Area;
use nx_lists::NoMemory;
use nx_tree::Bytes;
use std::alloc::Global;

/// Two areas, an input and an output in memory, and what changed the areas and the output.
#[derive(Drop)]
pub(crate) struct Memory {
    pub(crate) pages: Reserved,
    pub(crate) log: Reserved,
    pub(crate) output: Reserved,
    pub(crate) history: History,
    ghost sound: { IsHistory (reverse history.changes.items) (record { areas = record { pages = pages.bytes.items; log = log.bytes.items }; output = output.bytes.items; covered = history.covered.items }) } by { history_is_prop _ _ },
    pub(crate) source: Source,
}

impl Memory {
    ghost use Rattle.nx_memory.specs.Source.{bytes_left};
    ghost use Rattle.nx_memory.specs.History.{MayLeave};
    ghost use Rattle.nx_memory.specs.Crash.{crash_image};
    ghost use Rattle.nx_memory.specs.Memory.{changes_of, present_of, areas_of, output_of, most_of, AddsChange, HasRoomToWrite, HasRoomToSync, HasRoomToEmit};

    /// These areas and this input, with so much room for each of the areas, the output and the
    /// history.
    pub(crate) fn new(
        alloc: Global,
        image: Image,
        input: Bytes,
        room: u64,
    ) -> Result<Memory, NoMemory>
        requires { room ≤ 2 ^ 32 }
        ensures areas { IfOk result (λ memory. areas_of memory ≡ record { pages = image.pages; log = image.log }) }
        ensures changes { IfOk result (λ memory. changes_of memory ≡ []) }
        ensures output { IfOk result (λ memory. output_of memory ≡ []) }
        ensures input { IfOk result (λ memory. bytes_left memory.source ≡ input) }
        ensures room { IfOk result (λ memory. (memory.history.room ≡ room) × (memory.output.most ≡ room) ×
            (memory.pages.most ≡ length image.pages + room) × (memory.log.most ≡ length image.log + room)) }
    {
        let Image { pages, log } = image;
        Ok(Memory {
            pages: Reserved::new(pages.into_vec(), room)?,
            log: Reserved::new(log.into_vec(), room)?,
            output: Reserved::new(Vec::new(alloc), room)?,
            history: History::new(alloc, room)?,
            source: Source::new(input),
        })
    }

    /// The length of an area.
    pub(crate) fn length(&self, area: Area) -> u64
        ensures { result ≡ length (area_of area (areas_of self.now)) }
    {
        match area {
            Area::Pages => self.pages.bytes.len() as u64,
            Area::Log => self.log.bytes.len() as u64,
        }
    }

    /// Fills a slice from an offset of an area on, and gives how many bytes it wrote there.
    pub(crate) fn read(&self, area: Area, at: u64, into: &mut [u8]) -> usize
        ensures count { result ≡ length (given_at at (length into.old) (area_of area (areas_of self.now))) }
        ensures bytes { take result into.new ≡ given_at at (length into.old) (area_of area (areas_of self.now)) }
    {
        match area {
            Area::Pages => self.pages.read(at, into),
            Area::Log => self.log.read(at, into),
        }
    }

    /// What a crash may leave of the areas, by this choice.
    pub(crate) fn image(&self, alloc: Global, choice: Choice) -> Result<Image, NoMemory>
        ensures image { IfOk result (λ image. record { pages = image.pages; log = image.log } ≡ crash_image choice (changes_of self.now) (present_of self.now)) }
        ensures left { IfOk result (λ image. MayLeave (changes_of self.now) (present_of self.now) (record { pages = image.pages; log = image.log })) }
    {
        let changes = &self.history.changes;
        let covered = &self.history.covered;
        let pages = area_left(
            alloc,
            &self.pages.bytes,
            changes,
            covered,
            Area::Pages,
            choice,
        )?;
        let log = area_left(alloc, &self.log.bytes, changes, covered, Area::Log, choice)?;
        Ok(Image { pages, log })
    }

    /// Writes to an area, where area and history have room, and says whether they had.
    pub(crate) fn write(&mut self, area: Area, at: u64, bytes: &[u8]) -> bool
        requires { at + length bytes.now ≤ 2 ^ 63 }
        ensures room { IsTrue result ↔ HasRoomToWrite area at (length bytes.now) self.old }
        ensures adds { IsTrue result → AddsChange (Change.Write area at (length bytes.now) (length (area_of area (areas_of self.old)))) self.old self.new }
        ensures written { IsTrue result → WritesTo area at bytes.now (areas_of self.old) (areas_of self.new) }
        ensures refused { IsFalse result → self.new ≡ self.old }
    {
        match area {
            Area::Pages => write(&mut self.pages, &mut self.history, Area::Pages, at, bytes),
            Area::Log => write(&mut self.log, &mut self.history, Area::Log, at, bytes),
        }
    }

    /// Makes what was written to an area durable, where the history has room, and says whether it had.
    pub(crate) fn sync(&mut self, area: Area) -> bool
        ensures room { IsTrue result ↔ HasRoomToSync self.old }
        ensures adds { IsTrue result → AddsChange (Change.Sync area) self.old self.new }
        ensures areas { areas_of self.new ≡ areas_of self.old }
        ensures refused { IsFalse result → self.new ≡ self.old }
    {
        if !self.history.has_room(0) {
            return false;
        }
        self.history.add(Change::Sync { area }, &[]);
        true
    }

    /// Appends to the output, where output and history have room, and says whether they had.
    pub(crate) fn emit(&mut self, bytes: &[u8]) -> bool
        ensures room { IsTrue result ↔ HasRoomToEmit (length bytes.now) self.old }
        ensures adds { IsTrue result → AddsChange (Change.Emit (length (output_of self.old))) self.old self.new }
        ensures output { IsTrue result → output_of self.new ≡ output_of self.old ++ bytes.now }
        ensures areas { areas_of self.new ≡ areas_of self.old }
        ensures refused { IsFalse result → self.new ≡ self.old }
    {
        let was = self.output.bytes.len();
        if bytes.len() > self.output.most - was || !self.history.has_room(0) {
            return false;
        }
        self.history.add(Change::Emit { was: was as u64 }, &[]);
        self.output.append(bytes);
        true
    }
}

// Writes to one area.
fn write(target: &mut Reserved, history: &mut History, area: Area, at: u64, bytes: &[u8]) -> bool
    requires { at + length bytes.now ≤ 2 ^ 63 }
    ensures room { IsTrue result ↔ (at + length bytes.now ≤ target.old.most) ×
        (32 * (length history.old.changes.items + 1) + (length history.old.covered.items + covers at (length bytes.now) (length target.old.bytes.items)) ≤ history.old.room) }
    ensures wrote { IsTrue result → Wrote area at bytes.now target.old target.new history.old history.new }
    ensures most { target.new.most ≡ target.old.most }
    ensures same_room { history.new.room ≡ history.old.room }
    ensures refused { IsFalse result → (target.new ≡ target.old) × (history.new ≡ history.old) }
{
    let covered = target.covered(at, bytes.len());
    if at + bytes.len() as u64 > target.most as u64 || !history.has_room(covered.len()) {
        return false;
    }
    let change = Change::Write {
        area,
        at,
        count: bytes.len() as u64,
        was: target.bytes.len() as u64,
    };
    history.add(change, covered);
    target.write(at, bytes);
    true
}
