// The second phase: the output is given.
ghost use Rattle.std.specs.Prelude.{◌≡◌, ◌≤◌, ℕ, List, [], ◌++◌, length, true, false, Ok, OnOk, IfOk, string_bytes};
ghost use Rattle.nx_host.specs.Phase.{GivesAlone};
ghost use Rattle.nx_pyx.specs.Text.{text};
ghost use Rattle.nx_bounds.specs.PlanText.{plan_text};
ghost use Rattle.nx_filters.specs.Refusal.{refusal_line};
ghost use Rattle.nx_filters.specs.Verify.{certified_line};
ghost use Rattle.nx_filters.specs.Outcome.{Given, GivenBut, EndsAfter, line_after, status_after};
ghost use Rattle.nx_filters.specs.declared.give.GiveError.TheVariants.{NoMemory, WriteFault};

use crate::Status;
use crate::refusal::{Refusal, refusal_line};
use crate::take_error::TakeError;
use nx_bounds::PlanWriter;
use nx_host::{Disk, Failed, Host};
use nx_parts::Plan;
use nx_pyx::Writer;
use nx_tree::{Bytes, Tree};
use std::alloc::{AllocError, Global};

/// Once a block has as many bytes, it is given.
pub const BLOCK: usize = 65_536;

/// Why the output isn't whole.
#[derive(Clone, Copy)]
pub enum GiveError {
    /// Writing it failed. `out_faults` rose.
    WriteFault,
    /// There was no memory for a part of it.
    NoMemory,
}

impl From<nx_tree::NoMemory> for GiveError {
    ghost from_gives = { λ _ error. error ≡ NoMemory };

    fn from(_: nx_tree::NoMemory) -> GiveError {
        GiveError::NoMemory
    }
}

impl From<AllocError> for GiveError {
    ghost from_gives = { λ _ error. error ≡ NoMemory };

    fn from(_: AllocError) -> GiveError {
        GiveError::NoMemory
    }
}

impl From<Failed> for GiveError {
    ghost from_gives = { λ _ error. error ≡ WriteFault };

    fn from(_: Failed) -> GiveError {
        GiveError::WriteFault
    }
}

// Gives the bytes, if there are any.
pub fn give<H: Host>(host: &mut H, bytes: &[u8]) -> Result<(), GiveError>
    ensures given { Given bytes.now result (H.beside host.old) (H.beside host.new) }
    ensures alone { GivesAlone ⟦<H as Disk>⟧ bytes.now host.old host.new }
{
    if !bytes.is_empty() {
        host.emit(bytes)?;
    }
    Ok(())
}

/// Gives what the block has, and empties it.
///
/// Errors: `WriteFault`, where `out_faults` rose; a first part of the block was given then.
pub fn give_block<H: Host>(host: &mut H, block: &mut Bytes) -> Result<(), GiveError>
    ensures given { Given block.old result (H.beside host.old) (H.beside host.new) }
    ensures empty { OnOk result (block.new ≡ []) }
    ensures alone { GivesAlone ⟦<H as Disk>⟧ block.old host.old host.new }
{
    give(host, block.as_slice())?;
    block.clear();
    Ok(())
}

// What writes a text block by block.
pub trait Writes {
    // The bytes that are still to come.
    ghost left: { Self → List ℕ };

    // Adds bytes to the block until it has at least `enough`, or there are no more.
    fn fill_block(&mut self, block: &mut Bytes, enough: usize) -> Result<bool, nx_tree::NoMemory>
        ensures text { block.new ++ left self.new ≡ block.old ++ left self.old }
        ensures more { result ≡ Ok true → enough ≤ length block.new }
        ensures end { result ≡ Ok false → left self.new ≡ [] };
}

impl Writes for Writer<'_> {
    ghost left = { λ text. text };

    fn fill_block(&mut self, block: &mut Bytes, enough: usize) -> Result<bool, nx_tree::NoMemory> {
        self.fill(block, enough)
    }
}

impl Writes for PlanWriter<'_> {
    ghost left = { λ text. text };

    fn fill_block(&mut self, block: &mut Bytes, enough: usize) -> Result<bool, nx_tree::NoMemory> {
        self.fill(block, enough)
    }
}

// Gives what the block has and what is written behind it, but for a last part, which is left in the
// block.
fn give_written<H: Host, W: Writes>(
    host: &mut H,
    block: &mut Bytes,
    writer: &mut W,
) -> Result<(), GiveError>
    ensures given { GivenBut (block.old ++ W.left writer.old) block.new result (H.beside host.old) (H.beside host.new) }
    ensures alone { GivesAlone ⟦<H as Disk>⟧ (block.old ++ W.left writer.old) host.old host.new }
{
    while writer.fill_block(block, BLOCK)? {
        give_block(host, block)?;
    }
    Ok(())
}

// Gives what is written.
fn give_all<H: Host, W: Writes>(
    alloc: Global,
    host: &mut H,
    writer: &mut W,
) -> Result<(), GiveError>
    ensures given { Given (W.left writer.old) result (H.beside host.old) (H.beside host.new) }
    ensures alone { GivesAlone ⟦<H as Disk>⟧ (W.left writer.old) host.old host.new }
{
    let mut block = Bytes::new(alloc);
    give_written(host, &mut block, writer)?;
    give_block(host, &mut block)
}

// Gives the canonical text of the document.
pub fn give_text<H: Host>(alloc: Global, host: &mut H, tree: &Tree) -> Result<(), GiveError>
    ensures given { Given (text tree.now) result (H.beside host.old) (H.beside host.new) }
    ensures alone { GivesAlone ⟦<H as Disk>⟧ (text tree.now) host.old host.new }
{
    let mut writer = Writer::new(alloc, tree)?;
    give_all(alloc, host, &mut writer)
}

// Gives the text of the plan.
pub fn give_plan<H: Host>(alloc: Global, host: &mut H, plan: &Plan) -> Result<(), GiveError>
    ensures given { Given (plan_text plan.now) result (H.beside host.old) (H.beside host.new) }
    ensures alone { GivesAlone ⟦<H as Disk>⟧ (plan_text plan.now) host.old host.new }
{
    let mut writer = PlanWriter::new(plan);
    give_all(alloc, host, &mut writer)
}

// Gives the line that refuses the input.
fn give_refusal<H: Host>(alloc: Global, host: &mut H, refusal: Refusal) -> Result<(), GiveError>
    ensures given { Given (refusal_line refusal) result (H.beside host.old) (H.beside host.new) }
    ensures alone { GivesAlone ⟦<H as Disk>⟧ (refusal_line refusal) host.old host.new }
{
    let line = refusal_line(alloc, refusal)?;
    give(host, line.as_slice())
}

// Gives the line for a plan of so many intervals that is certified.
pub fn give_count<H: Host>(alloc: Global, host: &mut H, intervals: usize) -> Result<(), GiveError>
    ensures given { Given (certified_line intervals) result (H.beside host.old) (H.beside host.new) }
    ensures alone { GivesAlone ⟦<H as Disk>⟧ (certified_line intervals) host.old host.new }
{
    let line = certified_line(alloc, intervals)?;
    give(host, line.as_bytes())
}

// The line for a plan of so many intervals that is certified.
fn certified_line(alloc: Global, intervals: usize) -> Result<String, AllocError>
    ensures { IfOk result (λ line. string_bytes line ≡ certified_line intervals) }
{
    format!(in alloc; "certified {intervals}\n")
}

// The status of a run that ends with `whole` where its output is whole.
pub fn status_of(given: Result<(), GiveError>, whole: Status) -> Status
    ensures { result ≡ status_after whole given }
{
    match given {
        Ok(()) => whole,
        Err(GiveError::WriteFault) => Status::WriteFault,
        Err(GiveError::NoMemory) => Status::NoMemory,
    }
}

// Ends a run whose reading has stopped: gives the line of a refusal.
pub fn end_after<H: Host>(alloc: Global, host: &mut H, stop: TakeError) -> Status
    ensures ends { EndsAfter stop result (H.beside host.old) (H.beside host.new) }
    ensures alone { GivesAlone ⟦<H as Disk>⟧ (line_after stop) host.old host.new }
{
    match stop {
        TakeError::Refused(refusal) => {
            status_of(give_refusal(alloc, host, refusal), Status::Refused)
        }
        TakeError::ReadFault => Status::ReadFault,
        TakeError::TooMuch => Status::TooMuch,
        TakeError::NoMemory => Status::NoMemory,
    }
}
