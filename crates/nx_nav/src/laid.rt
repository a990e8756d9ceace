// The intervals of a document as they are stored.
ghost use Rattle.std.specs.Prelude.{◌≡◌, ◌≤◌, false, length, IfOk, IfErr};
ghost use Rattle.nx_host.specs.Still.{IsStill};
ghost use Rattle.nx_records.specs.Records.{has_ended, LeavesRecords};
ghost use Rattle.nx_parts.specs.Partitioning.{part_weights};
ghost use Rattle.nx_cuts.specs.Cut.{tree_of, parts_of};
ghost use Rattle.nx_hold.specs.Changes.{place_of};
ghost use Rattle.nx_nav.specs.Laid.{interval_at};
ghost use Rattle.nx_nav.specs.Refusals.{OfEach, HoldsNoneWith, IsRefused, node_count};

use crate::NavError;
use crate::visited::Visited;
use crate::walking::{Tells, Walk, tell_document};
use nx_host::Disk;
use nx_parts::{Interval, Partitioning};
use nx_piece::{BodyView, NodeView};
use nx_records::{Records, Rid};
use nx_tree::{Kind, NoMemory, Path};
use nx_weights::Weights;
use std::alloc::Global;

/// The intervals that a document is stored in, and what their parts weigh.
#[derive(Drop)]
pub struct Laid {
    /// In document order of their first members, the root's first.
    pub parts: Partitioning,
    /// One for each interval, in slots of 8 bytes.
    pub weights: Weights,
}

/// The stored intervals of the document of so many nodes, its root counted, whose root's record stands at
/// `root`, and what their parts weigh. It reads no page of a content.
///
/// Errors: `Damaged` only where the records hold no document of so many nodes, in parts of at most K of
/// the settings, from there on; `Disk`, only where `faults` rose; `Ended` exactly where the records had
/// ended; `Memory`. The records are as they were then, but that they end with `Damaged` and `Disk`.
pub fn layout<D: Disk>(
    alloc: Global,
    records: &mut Records,
    disk: &mut D,
    root: Rid,
    nodes: u32,
) -> Result<Laid, NavError>
    ensures still { IsStill D.Disk disk.old disk.new }
    ensures pairs { IfOk result (λ laid. length laid.weights ≡ length laid.parts) }
    ensures ok { IfOk result (λ laid. (has_ended records.old ≡ false) × LeavesRecords records.old records.new
        × OfEach D.Disk records.old disk.old (place_of root) (λ document. (node_count document ≡ nodes) × (laid.parts ≡ parts_of document) × (laid.weights ≡ part_weights (tree_of document) (parts_of document)))) }
    ensures refused { IfErr result (λ e. IsRefused D.Disk ⊥ ⊥ (HoldsNoneWith D.Disk records.old disk.old (place_of root) nodes) e records.old records.new disk.old disk.new) }
{
    let mut walk = Walk {
        alloc,
        teller: Laying::new(alloc),
        left: nodes,
        visited: Visited::new(alloc),
    };
    tell_document(&mut walk, records, disk, root)?;
    Ok(Laid {
        parts: walk.teller.parts,
        weights: walk.teller.weights,
    })
}

// The intervals so far with what their parts weigh, and where the walk is.
#[derive(Drop)]
struct Laying {
    alloc: Global,
    parts: Partitioning,
    weights: Weights,
    // The positions of the open nodes, the root's own the first.
    path: Path,
    // The position of the next node.
    position: u32,
}

impl Laying {
    ghost use Rattle.std.specs.Prelude.{◌≡◌, []};
    ghost use Rattle.std.specs.Prelude.{OnOk};
    ghost use Rattle.nx_nav.specs.Laid.{course_of, course_into};

    fn new(alloc: Global) -> Laying
        ensures { course_of result ≡ record { path = []; position = 0; parts = []; weights = [] } }
    {
        Laying {
            alloc,
            parts: Partitioning::new(alloc),
            weights: Weights::new(alloc),
            path: Path::new(alloc),
            position: 0,
        }
    }

    // A node begins.
    fn go_into(&mut self) -> Result<(), NoMemory>
        ensures { OnOk result (course_of self.new ≡ course_into (course_of self.old)) }
    {
        self.path.push(self.position)?;
        self.position = 0;
        Ok(())
    }
}

impl<D: Disk> Tells<D> for Laying {
    ghost use Rattle.std.specs.Prelude.{◌≡◌, false};
    ghost use Rattle.nx_host.specs.Disk.{Keeps};
    ghost use Rattle.nx_host.specs.Still.{IsStill};
    ghost use Rattle.nx_nav.specs.Laid.{course_of, course_behind, courses_join};

    ghost Contents = { false };

    ghost Told = { λ a x told b y. IsStill D.Disk x y × (course_of b ≡ course_behind (course_of a) told) };

    ghost Unwritten = { λ _ _. ⊥ };

    ghost IsReady = { λ _. Unit {0} };

    ghost Near = { λ _. 0 };

    fn wants_contents(&self) -> bool {
        false
    }

    fn pause(&mut self, _disk: &mut D) -> Result<(), NavError> {
        Ok(())
    }

    fn finish(&mut self, _disk: &mut D) -> Result<(), NavError> {
        Ok(())
    }

    fn begin(&mut self, roots: u16, body: &BodyView<'_>) -> Result<(), NoMemory> {
        let path = self.path.as_slice();
        let interval = interval_at(self.alloc, path, self.position, roots)?;
        self.parts.push(interval)?;
        self.weights.push(u64::from(body.weight()))
    }

    fn open(&mut self, _node: NodeView<'_>) -> Result<(), NoMemory> {
        self.go_into()
    }

    fn head(&mut self, _kind: Kind, _name: &[u8]) -> Result<(), NoMemory> {
        self.go_into()
    }

    fn content(&mut self, _bytes: &[u8]) -> Result<(), NoMemory> {
        Ok(())
    }

    fn tail(&mut self) -> Result<(), NoMemory> {
        Ok(())
    }

    fn close(&mut self, _kind: Kind, _name: &[u8]) -> Result<(), NoMemory> {
        if let Some(last) = self.path.as_slice().last().copied() {
            self.path.truncate(self.path.len() - 1);
            self.position = last.saturating_add(1);
        }
        Ok(())
    }

    ghost use Rattle.std.proofs.Common.{[], refl, sym, subst, arith};
    ghost use Rattle.nx_host.proofs.DiskLemmas.{still_then, keeps_self};
    ghost use Rattle.nx_nav.specs.GivenLaws.{appends_kept};

    ghost asked = { λ a x y still. (still, refl) };

    ghost then = { λ a b c x y z s t first second. (still_then first.0 second.0, courses_join (course_of a) (course_of b) (course_of c) s t first.1 second.1) };

    ghost keeps = { λ a b x y s told. subst (λ o. Keeps (D.contents x) o) (sym (told.0).contents_stay) (keeps_self (D.contents x)) };

    ghost fewer_images = { λ a b x y s i told. ((told.0).images_stay i).0 };

    ghost faults_later = { λ a b x y s told. (told.0).faults_later };

    ghost unwritten_later = { λ a b x y z s told unwritten. unwritten };

    ghost output_grows = { λ a b x y s told. ([], appends_kept (D.beside x).output (D.beside y).output ((told.0).beside_stays).output) };

    ghost near_later = { λ a b x y s told left. omega arith };
}

// The interval of so many nodes from a position on, or the root's where no node is open. The path has
// the root's own position first.
fn interval_at(alloc: Global, path: &[u32], position: u32, roots: u16) -> Result<Interval, NoMemory>
    requires { 1 ≤ roots }
    ensures { IfOk result (λ interval. interval ≡ interval_at path.now position roots) }
{
    let Some((_, parent)) = path.split_first() else {
        return Ok(Interval::Root);
    };
    Ok(Interval::Run {
        parent: Path::from_slice(alloc, parent)?,
        first: position,
        last: position.saturating_add(u32::from(roots) - 1),
    })
}
