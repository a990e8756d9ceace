// The paths that steps reach in a stored document.
ghost use Rattle.std.specs.Prelude.{◌≡◌, false, IfOk, IfErr};
ghost use Rattle.nx_host.specs.Still.{IsStill};
ghost use Rattle.nx_records.specs.Records.{has_ended, LeavesRecords};
ghost use Rattle.nx_cuts.specs.Cut.{tree_of};
ghost use Rattle.nx_hold.specs.Changes.{place_of};
ghost use Rattle.nx_nav.specs.Refusals.{IsRefused};
ghost use Rattle.nx_reach.specs.Reach.{Found, label_of};
ghost use Rattle.nx_find.specs.Over.{OfEachMapped, ReadsOf, IsGivenUp, holds_of, last_label, records_for};

use crate::handing::handed_on;
use crate::walking::{Looks, Walk, show_document};
use crate::wanted::Wanted;
use crate::{FindError, Names, Paths, Step, Steps};
use nx_hold::DocEntry;
use nx_host::Disk;
use nx_nav::NavError;
use nx_reach::Finder;
use nx_records::{Records, Rid};
use nx_tree::{Kind, NoMemory};
use std::alloc::Global;

/// The paths of the nodes that the steps reach in the document of an entry, in document order, each once. `names`
/// has to be the map of that document. Below the root's record it reads no records but those that hold the last step's
/// label, each once, with the chain pages that it names for its proxies, and no content.
///
/// Errors: `Damaged` only where the records hold no document of so many nodes from there on that `names` are of; `Disk`,
/// only where `faults` rose; `Ended` exactly where the records had ended; `Memory`. The records are as they were then, but
/// that they end with `Damaged` and `Disk`.
pub fn find<D: Disk>(
    alloc: Global,
    records: &mut Records,
    disk: &mut D,
    names: &Names,
    entry: DocEntry,
    steps: &Steps,
) -> Result<Paths, FindError>
    ensures still { IsStill D.Disk disk.old disk.new }
    ensures ok { IfOk result (λ paths. (has_ended records.old ≡ false) × LeavesRecords records.old records.new
        × OfEachMapped D.Disk records.old disk.old (place_of entry.root) entry.nodes (holds_of names.now) (λ now document layout. Found (tree_of document) steps.now paths)) }
    ensures reads { OfEachMapped D.Disk records.old disk.old (place_of entry.root) entry.nodes (holds_of names.now)
        (λ now document layout. ReadsOf now (records_for (holds_of names.now) (last_label steps.now) (place_of entry.root) layout) (D.reads disk.old) (D.reads disk.new)) }
    ensures refused { IfErr result (λ e. IsGivenUp D.Disk (OfEachMapped D.Disk records.old disk.old (place_of entry.root) entry.nodes (holds_of names.now) (λ now document layout. ⊥)) e records.old records.new disk.old disk.new) }
{
    match look(alloc, records, disk, names, entry, steps) {
        Ok(paths) => Ok(paths),
        Err(error) => Err(handed_on(error)),
    }
}

// Those paths.
fn look<D: Disk>(
    alloc: Global,
    records: &mut Records,
    disk: &mut D,
    names: &Names,
    entry: DocEntry,
    steps: &Steps,
) -> Result<Paths, NavError>
    ensures still { IsStill D.Disk disk.old disk.new }
    ensures ok { IfOk result (λ paths. (has_ended records.old ≡ false) × LeavesRecords records.old records.new
        × OfEachMapped D.Disk records.old disk.old (place_of entry.root) entry.nodes (holds_of names.now) (λ now document layout. Found (tree_of document) steps.now paths)) }
    ensures reads { OfEachMapped D.Disk records.old disk.old (place_of entry.root) entry.nodes (holds_of names.now)
        (λ now document layout. ReadsOf now (records_for (holds_of names.now) (last_label steps.now) (place_of entry.root) layout) (D.reads disk.old) (D.reads disk.new)) }
    ensures refused { IfErr result (λ e. IsRefused D.Disk ⊥ ⊥ (OfEachMapped D.Disk records.old disk.old (place_of entry.root) entry.nodes (holds_of names.now) (λ now document layout. ⊥)) e records.old records.new disk.old disk.new) }
{
    if records.is_ended() {
        return Err(NavError::Ended);
    }
    let holders = names.map.holders(last_label(steps.as_slice()))?;
    let wanted = Wanted::Those(holders);
    let mut walk = Walk {
        alloc,
        looks: Looking {
            finder: Finder::new(alloc, steps),
        },
        left: entry.nodes,
    };
    show_document(&mut walk, records, disk, &wanted, entry.root)?;
    let Walk { looks, .. } = walk;
    Ok(looks.finder.into_found())
}

// The label that the last step asks for.
fn last_label(steps: &[Step]) -> &[u8]
    ensures { result.now ≡ last_label steps.now }
{
    match steps.last() {
        Some(step) => label_of(step),
        None => b"",
    }
}

// The label that a step asks for.
fn label_of(step: &Step) -> &[u8]
    ensures { result.now ≡ label_of step.now }
{
    match step {
        Step::Child { label } => label.as_slice(),
        Step::Below { label } => label.as_slice(),
    }
}

// What was found so far.
#[derive(Drop)]
struct Looking<'a> {
    finder: Finder<'a>,
}

impl<'a> Looks for Looking<'a> {
    ghost use Rattle.nx_reach.proofs.SeenLemmas.{goes_nothing};
    ghost use Rattle.nx_find.specs.Looking.{FindsLooks, finds_on};

    ghost Shown = { FindsLooks };

    fn enter(&mut self, _rid: Rid) -> Result<(), NoMemory> {
        Ok(())
    }

    fn begin(&mut self, kind: Kind, name: &[u8]) -> Result<(), NoMemory> {
        // A finder begins below the root.
        match kind {
            Kind::Doc => Ok(()),
            _ => self.finder.open(kind, name),
        }
    }

    fn end(&mut self, kind: Kind) -> Result<(), NoMemory> {
        match kind {
            Kind::Doc => Ok(()),
            _ => self.finder.close(),
        }
    }

    fn leave(&mut self) {}

    fn pass(&mut self, roots: u16) -> Result<(), NoMemory> {
        self.finder.skip(u32::from(roots))
    }

    ghost nothing = { λ a. goes_nothing a.finder };

    ghost then = { λ a b c s t. finds_on a b c s t };
}
