// The labels at or below the records of a document, gathered on a walk over all of them.
ghost use Rattle.std.specs.Prelude.{◌≡◌, false, IfOk, IfErr};
ghost use Rattle.nx_host.specs.Still.{IsStill};
ghost use Rattle.nx_records.specs.Records.{has_ended, LeavesRecords};
ghost use Rattle.nx_layouts.specs.Layout.{whole, places_of};
ghost use Rattle.nx_hold.specs.Changes.{place_of};
ghost use Rattle.nx_nav.specs.Refusals.{IsRefused, node_count};
ghost use Rattle.nx_names.specs.Gathered.{holds_label};
ghost use Rattle.nx_find.specs.Over.{OfEachLaid, IsMapOf, ReadsOf, IsGivenUp, holds_of};

use crate::handing::handed_on;
use crate::walking::{Looks, Walk, show_document};
use crate::wanted::Wanted;
use crate::{FindError, Names};
use nx_hold::DocEntry;
use nx_host::Disk;
use nx_names::{Gatherer, LabelMap};
use nx_nav::{NavError, damaged};
use nx_records::{Records, Rid};
use nx_tree::{Kind, NoMemory};
use std::alloc::Global;

/// The labels at or below each record of the document of an entry. It reads each of its records once, with the chain
/// pages that it names for its proxies, and no content.
///
/// Errors: `Damaged` only where the records hold no document of so many nodes from there on; `Disk`, only where
/// `faults` rose; `Ended` exactly where the records had ended; `Memory`. The records are as they were then, but that
/// they end with `Damaged` and `Disk`.
pub fn names_of<D: Disk>(
    alloc: Global,
    records: &mut Records,
    disk: &mut D,
    entry: DocEntry,
) -> Result<Names, FindError>
    ensures still { IsStill D.Disk disk.old disk.new }
    ensures ok { IfOk result (λ names. (has_ended records.old ≡ false) × LeavesRecords records.old records.new
        × OfEachLaid D.Disk records.old disk.old (place_of entry.root) (λ now document layout. (node_count document ≡ entry.nodes) × IsMapOf (holds_of names) (place_of entry.root) document layout)) }
    ensures reads { OfEachLaid D.Disk records.old disk.old (place_of entry.root) (λ now document layout. ReadsOf now (places_of (whole (place_of entry.root) document.node layout)) (D.reads disk.old) (D.reads disk.new)) }
    ensures refused { IfErr result (λ e. IsGivenUp D.Disk (OfEachLaid D.Disk records.old disk.old (place_of entry.root) (λ now document layout. node_count document ≡ entry.nodes → ⊥)) e records.old records.new disk.old disk.new) }
{
    match gather(alloc, records, disk, entry) {
        Ok(map) => Ok(Names { map }),
        Err(error) => Err(handed_on(error)),
    }
}

// The map of those labels.
fn gather<D: Disk>(
    alloc: Global,
    records: &mut Records,
    disk: &mut D,
    entry: DocEntry,
) -> Result<LabelMap, NavError>
    ensures still { IsStill D.Disk disk.old disk.new }
    ensures ok { IfOk result (λ map. (has_ended records.old ≡ false) × LeavesRecords records.old records.new
        × OfEachLaid D.Disk records.old disk.old (place_of entry.root) (λ now document layout. (node_count document ≡ entry.nodes) × IsMapOf (holds_label map) (place_of entry.root) document layout)) }
    ensures reads { OfEachLaid D.Disk records.old disk.old (place_of entry.root) (λ now document layout. ReadsOf now (places_of (whole (place_of entry.root) document.node layout)) (D.reads disk.old) (D.reads disk.new)) }
    ensures refused { IfErr result (λ e. IsRefused D.Disk ⊥ ⊥ (OfEachLaid D.Disk records.old disk.old (place_of entry.root) (λ now document layout. node_count document ≡ entry.nodes → ⊥)) e records.old records.new disk.old disk.new) }
{
    let mut walk = Walk {
        alloc,
        looks: Gathering {
            gatherer: Gatherer::new(alloc),
        },
        left: entry.nodes,
    };
    show_document(&mut walk, records, disk, &Wanted::All, entry.root)?;
    if walk.left != 0 {
        return Err(damaged(records, entry.root.page));
    }
    let Walk { looks, .. } = walk;
    match looks.gatherer.finish()? {
        Some(map) => Ok(map),
        None => Err(damaged(records, entry.root.page)),
    }
}

// What was gathered so far.
#[derive(Drop)]
struct Gathering {
    gatherer: Gatherer,
}

impl Looks for Gathering {
    ghost use Rattle.nx_find.specs.Looking.{GathersLooks};
    ghost use Rattle.nx_names.proofs.GatherLemmas.{gathers_on};

    ghost Shown = { GathersLooks };

    fn enter(&mut self, rid: Rid) -> Result<(), NoMemory> {
        self.gatherer.enter(rid.page, rid.slot)
    }

    fn begin(&mut self, kind: Kind, name: &[u8]) -> Result<(), NoMemory> {
        self.gatherer.begin(kind, name)
    }

    fn end(&mut self, _kind: Kind) -> Result<(), NoMemory> {
        Ok(())
    }

    fn leave(&mut self) {
        self.gatherer.leave();
    }

    fn pass(&mut self, _roots: u16) -> Result<(), NoMemory> {
        Ok(())
    }

    ghost nothing = { λ a. λ g is. is };

    ghost then = { λ a b c s t. gathers_on a.gatherer b.gatherer c.gatherer s t };
}
