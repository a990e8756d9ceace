// The text of a document.
ghost use Rattle.std.specs.Prelude.{◌≡◌, ◌++◌, [], None, Some, false, IfOk, IfErr, OnOk};
ghost use Rattle.nx_host.specs.Still.{IsStill};
ghost use Rattle.nx_records.specs.Records.{has_ended, LeavesRecords};
ghost use Rattle.nx_tree.specs.Forest.{OrderedTree};
ghost use Rattle.nx_tree.specs.Edit.{at};
ghost use Rattle.nx_pyx.specs.Text.{text, tree_text};
ghost use Rattle.nx_piece.specs.Flat.{seen_node};
ghost use Rattle.nx_cuts.specs.Cut.{CutTree, tree_of};
ghost use Rattle.nx_hold.specs.Documents.{HasDocument};
ghost use Rattle.nx_nav.specs.Visited.{HasVisited};
ghost use Rattle.nx_hold.specs.Changes.{place_of};
ghost use Rattle.nx_nav.specs.Steps.{Open, Close};
ghost use Rattle.nx_nav.specs.Told.{walk_step_text};
ghost use Rattle.nx_nav.specs.Pages.{ReadsBelow, pages_below};
ghost use Rattle.nx_nav.specs.Refusals.{OfEach, HoldsNoneWith, HoldsNoneWithin, IsRefused, node_count};

use crate::NavError;
use crate::visited::Visited;
use crate::walking::{Tells, Walk, tell_below, tell_document};
use nx_host::Disk;
use nx_piece::{BodyView, NodeView};
use nx_pyx::{push_escaped, push_line_start, push_parts_line};
use nx_records::{Records, Rid};
use nx_tree::{Bytes, Kind, NoMemory};
use std::alloc::Global;

/// The canonical text of the document of so many nodes, its root counted, whose root's record stands at
/// `root`. Of a content of more than 1,024 bytes one chain page at a time is in memory beside the text.
///
/// Errors: `Damaged` only where the records hold no document of so many nodes, in parts of at most K of
/// the settings, from there on; `Disk`, only where `faults` rose; `Ended` exactly where the records had
/// ended; `Memory`. The records are as they were then, but that they end with `Damaged` and `Disk`.
pub fn text_of<D: Disk>(
    alloc: Global,
    records: &mut Records,
    disk: &mut D,
    root: Rid,
    nodes: u32,
) -> Result<Bytes, NavError>
    ensures still { IsStill D.Disk disk.old disk.new }
    ensures ok { IfOk result (λ bytes. (has_ended records.old ≡ false) × LeavesRecords records.old records.new
        × OfEach D.Disk records.old disk.old (place_of root) (λ document. (node_count document ≡ nodes) × (bytes ≡ text (tree_of document)))) }
    ensures refused { IfErr result (λ e. IsRefused D.Disk ⊥ ⊥ (HoldsNoneWith D.Disk records.old disk.old (place_of root) nodes) e records.old records.new disk.old disk.new) }
{
    let mut walk = text_walk(alloc, nodes);
    tell_document(&mut walk, records, disk, root)?;
    Ok(walk.teller.bytes)
}

/// As `show`, as one text in memory.
///
/// Errors: those of `text_of`, but `Damaged` only where there is no document of at most so many nodes;
/// `NoNode` only where the path leads nowhere.
pub fn subtree_of<D: Disk>(
    alloc: Global,
    records: &mut Records,
    disk: &mut D,
    root: Rid,
    nodes: u32,
    path: &[u32],
) -> Result<Bytes, NavError>
    ensures still { IsStill D.Disk disk.old disk.new }
    ensures ok { IfOk result (λ bytes. (has_ended records.old ≡ false) × LeavesRecords records.old records.new
        × OfEach D.Disk records.old disk.old (place_of root) (λ document. (tree : OrderedTree) × (at (tree_of document) path.now ≡ Some tree) × (bytes ≡ tree_text tree))) }
    ensures reads { (document : CutTree) (held : HasDocument D.Disk records.old disk.old (place_of root) document)
        → ReadsBelow held.now (place_of root) path.now (pages_below held path.now) (D.reads disk.old) (D.reads disk.new) }
    ensures refused { IfErr result (λ e. IsRefused D.Disk (OfEach D.Disk records.old disk.old (place_of root) (λ document. at (tree_of document) path.now ≡ None)) ⊥
        (HoldsNoneWithin D.Disk records.old disk.old (place_of root) nodes) e records.old records.new disk.old disk.new) }
{
    let mut walk = text_walk(alloc, nodes);
    tell_below(&mut walk, records, disk, root, path)?;
    Ok(walk.teller.bytes)
}

// A walk that makes a text.
fn text_walk(alloc: Global, nodes: u32) -> Walk<Text>
    ensures none { result.teller.bytes ≡ [] }
    ensures left { result.left ≡ nodes }
    ensures fresh { HasVisited result.visited [] }
{
    Walk {
        alloc,
        teller: Text {
            bytes: Bytes::new(alloc),
        },
        left: nodes,
        visited: Visited::new(alloc),
    }
}

// The text so far.
#[derive(Drop)]
struct Text {
    bytes: Bytes,
}

impl<D: Disk> Tells<D> for Text {
    ghost use Rattle.std.specs.Prelude.{◌≡◌, ◌++◌, true};
    ghost use Rattle.nx_host.specs.Disk.{Keeps};
    ghost use Rattle.nx_host.specs.Still.{IsStill};
    ghost use Rattle.nx_nav.specs.Told.{told_text, text_joins};

    ghost Contents = { true };

    ghost Told = { λ a x told b y. IsStill D.Disk x y × (b.bytes ≡ a.bytes ++ told_text told) };

    ghost Unwritten = { λ _ _. ⊥ };

    ghost IsReady = { λ _. Unit {0} };

    ghost Near = { λ _. 0 };

    fn wants_contents(&self) -> bool {
        true
    }

    fn pause(&mut self, _disk: &mut D) -> Result<(), NavError> {
        Ok(())
    }

    fn finish(&mut self, _disk: &mut D) -> Result<(), NavError> {
        Ok(())
    }

    fn begin(&mut self, _roots: u16, _body: &BodyView<'_>) -> Result<(), NoMemory> {
        Ok(())
    }

    fn open(&mut self, node: NodeView<'_>) -> Result<(), NoMemory> {
        push_start(&mut self.bytes, node)
    }

    fn head(&mut self, kind: Kind, name: &[u8]) -> Result<(), NoMemory> {
        push_line_start(&mut self.bytes, kind, name)
    }

    fn content(&mut self, bytes: &[u8]) -> Result<(), NoMemory> {
        push_escaped(&mut self.bytes, bytes)
    }

    fn tail(&mut self) -> Result<(), NoMemory> {
        self.bytes.push(b'\n')
    }

    fn close(&mut self, kind: Kind, name: &[u8]) -> Result<(), NoMemory> {
        push_end(&mut self.bytes, kind, name)
    }

    ghost use Rattle.std.proofs.Common.{[], sym, subst, arith};
    ghost use Rattle.std.proofs.lemmas.List.{append-nil};
    ghost use Rattle.nx_host.proofs.DiskLemmas.{still_then, keeps_self};
    ghost use Rattle.nx_nav.specs.GivenLaws.{appends_kept};

    ghost asked = { λ a x y still. (still, sym (append-nil a.bytes)) };

    ghost then = { λ a b c x y z s t first second. (still_then first.0 second.0, text_joins a.bytes b.bytes c.bytes s t first.1 second.1) };

    ghost keeps = { λ a b x y s told. subst (λ o. Keeps (D.contents x) o) (sym (told.0).contents_stay) (keeps_self (D.contents x)) };

    ghost fewer_images = { λ a b x y s i told. ((told.0).images_stay i).0 };

    ghost faults_later = { λ a b x y s told. (told.0).faults_later };

    ghost unwritten_later = { λ a b x y z s told unwritten. unwritten };

    ghost output_grows = { λ a b x y s told. ([], appends_kept (D.beside x).output (D.beside y).output ((told.0).beside_stays).output) };

    ghost near_later = { λ a b x y s told left. omega arith };
}

// Adds the line with which a node begins, but for the root of a document.
pub(crate) fn push_start(text: &mut Bytes, node: NodeView<'_>) -> Result<(), NoMemory>
    ensures { OnOk result (text.new ≡ text.old ++ walk_step_text (Open (seen_node node.entry).node)) }
{
    match node.kind {
        Kind::Doc => Ok(()),
        _ => {
            push_parts_line(text, node.kind, node.name, node.content)?;
            text.push(b'\n')
        }
    }
}

// Adds the line with which an element ends.
pub(crate) fn push_end(text: &mut Bytes, kind: Kind, name: &[u8]) -> Result<(), NoMemory>
    ensures { OnOk result (text.new ≡ text.old ++ walk_step_text (Close kind name.now)) }
{
    match kind {
        Kind::Element => {
            text.push(b')')?;
            text.extend_from_slice(name)?;
            text.push(b'\n')
        }
        _ => Ok(()),
    }
}
