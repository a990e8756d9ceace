// The text of a document, given to an output.
ghost use Rattle.std.specs.Prelude.{◌≡◌, ◌<◌, ◌++◌, ◌∷◌, [], false, length, List, ℕ, IsSome, None, Some, Err, IfErr, OnOk};
ghost use Rattle.std.specs.Option.{MatchOption};
ghost use Rattle.nx_host.specs.Disk.{Rose};
ghost use Rattle.nx_records.specs.Records.{has_ended, LeavesRecords};
ghost use Rattle.nx_host.specs.Still.{IsStill};
ghost use Rattle.nx_tree.specs.Forest.{OrderedTree};
ghost use Rattle.nx_tree.specs.Edit.{at};
ghost use Rattle.nx_pyx.specs.Text.{text, tree_text};
ghost use Rattle.nx_nav.specs.Visited.{HasVisited};
ghost use Rattle.nx_cuts.specs.Cut.{CutTree, tree_of};
ghost use Rattle.nx_hold.specs.Changes.{place_of};
ghost use Rattle.nx_hold.specs.Documents.{HasDocument};
ghost use Rattle.nx_nav.specs.Along.{ReadsAlong};
ghost use Rattle.nx_nav.specs.Early.{LeavesOutput};
ghost use Rattle.nx_nav.specs.Given.{AsksAndGives, AppendsBut, GivesWithin, block_size};
ghost use Rattle.nx_nav.specs.Pages.{ReadsBelow, pages_below};
ghost use Rattle.nx_nav.specs.Refusals.{OfEach, HoldsNoneWith, HoldsNoneWithin, IsRefused, node_count};

use crate::NavError;
use crate::telling::{push_end, push_start};
use crate::visited::Visited;
use crate::walking::{Tells, Walk, tell_below, tell_document};
use nx_host::{Disk, Host};
use nx_piece::{BodyView, NodeView};
use nx_pyx::{push_escaped, push_line_start};
use nx_records::{Records, Rid};
use nx_tree::{Bytes, Kind, NoMemory};
use std::alloc::Global;
use std::mem;

// Once the block has so many bytes, it is given.
const BLOCK: usize = 65_536;

/// Gives what the block has and, behind it, the canonical text of the document of so many nodes, its
/// root counted, whose root's record stands at `root`, but for a last part of fewer than 65,536 bytes, which is
/// left in the block. Before each record and each page of a content is read, the block has no more than that: so neither the
/// text nor a long content is ever in memory as a whole. What is said of documents holds where the disk's contents are still told afterwards.
///
/// What the block has with the lines of the first record is given before anything more is read. So where the output is as it was,
/// whatever is answered, no more pages were read than `outline` may read for the document's first child.
///
/// Errors: those of `text_of`; `Write`, only where `out_faults` rose. The block is of no use then.
pub fn export<H: Host>(
    alloc: Global,
    records: &mut Records,
    host: &mut H,
    root: Rid,
    nodes: u32,
    block: &mut Bytes,
) -> Result<(), NavError>
    ensures areas { AsksAndGives ⟦<H as Disk>⟧ host.old host.new }
    ensures stays { OnOk result ((has_ended records.old ≡ false) × LeavesRecords records.old records.new) }
    ensures ok { OnOk result (IsSome (H.contents host.new) → OfEach ⟦<H as Disk>⟧ records.old host.old (place_of root) (λ document. (node_count document ≡ nodes)
        × AppendsBut (block.old ++ text (tree_of document)) block.new (H.beside host.old).output (H.beside host.new).output)) }
    ensures little { OnOk result (length block.new < block_size) }
    ensures time { IsSome (H.contents host.new) → OfEach ⟦<H as Disk>⟧ records.old host.old (place_of root) (λ document.
        GivesWithin ⟦<H as Disk>⟧ (block.old ++ text (tree_of document)) host.old host.new) }
    ensures reads { LeavesOutput ⟦<H as Disk>⟧ host.old host.new → (document : CutTree) (held : HasDocument ⟦<H as Disk>⟧ records.old host.old (place_of root) document)
        → ReadsAlong held.now (place_of root) (0 ∷ []) (H.reads host.old) (H.reads host.new) }
    ensures refused { IfErr result (λ e. IsRefused ⟦<H as Disk>⟧ ⊥ (Rose (H.beside host.old).out_faults (H.beside host.new).out_faults)
        (IsSome (H.contents host.new) → HoldsNoneWith ⟦<H as Disk>⟧ records.old host.old (place_of root) nodes) e records.old records.new host.old host.new) }
{
    let mut walk = export_walk(alloc, nodes, block);
    tell_document(&mut walk, records, host, root)?;
    *block = walk.teller.block;
    Ok(())
}

/// Gives what the block has and, behind it, the canonical lines of the node at the path with all below
/// it, as they stand in the text of its document, which has at most so many nodes; for the path without
/// positions the whole text. As by `export`, a last part of fewer than 65,536 bytes is left in the block.
/// It reads no pages but those of the records on the path, each once, and behind them those of the records
/// that keep what is below the node, each once, with the chain pages that these name, and of far contents.
///
/// The lines of the node's own record are given, behind what the block has, before a further record is
/// read. So where the output is as it was, whatever is answered, no more pages were read than `outline`
/// may read for the node's first child.
///
/// Errors: those of `export`, but `Damaged` only where there is no document of at most so many nodes;
/// `NoNode` only where the path leads nowhere, and then nothing was given and the block is as it was.
/// With any other error the block is of no use.
pub fn show<H: Host>(
    alloc: Global,
    records: &mut Records,
    host: &mut H,
    root: Rid,
    nodes: u32,
    path: &[u32],
    block: &mut Bytes,
) -> Result<(), NavError>
    ensures areas { AsksAndGives ⟦<H as Disk>⟧ host.old host.new }
    ensures stays { OnOk result ((has_ended records.old ≡ false) × LeavesRecords records.old records.new) }
    ensures ok { OnOk result (IsSome (H.contents host.new) → OfEach ⟦<H as Disk>⟧ records.old host.old (place_of root) (λ document. (tree : OrderedTree) × (at (tree_of document) path.now ≡ Some tree)
        × AppendsBut (block.old ++ tree_text tree) block.new (H.beside host.old).output (H.beside host.new).output)) }
    ensures little { OnOk result (length block.new < block_size) }
    ensures nowhere { result ≡ Err NavError.NoNode → (block.new ≡ block.old) × IsStill ⟦<H as Disk>⟧ host.old host.new }
    ensures time { IsSome (H.contents host.new) → OfEach ⟦<H as Disk>⟧ records.old host.old (place_of root) (λ document. MatchOption (at (tree_of document) path.now)
        (GivesWithin ⟦<H as Disk>⟧ block.old host.old host.new) (λ tree. GivesWithin ⟦<H as Disk>⟧ (block.old ++ tree_text tree) host.old host.new)) }
    ensures early { LeavesOutput ⟦<H as Disk>⟧ host.old host.new → (document : CutTree) (held : HasDocument ⟦<H as Disk>⟧ records.old host.old (place_of root) document)
        → ReadsAlong held.now (place_of root) (path.now ++ 0 ∷ []) (H.reads host.old) (H.reads host.new) }
    ensures reads { IsSome (H.contents host.new) → (document : CutTree) (held : HasDocument ⟦<H as Disk>⟧ records.old host.old (place_of root) document)
        → ReadsBelow held.now (place_of root) path.now (pages_below held path.now) (H.reads host.old) (H.reads host.new) }
    ensures refused { IfErr result (λ e. IsRefused ⟦<H as Disk>⟧ (OfEach ⟦<H as Disk>⟧ records.old host.old (place_of root) (λ document. at (tree_of document) path.now ≡ None)) (Rose (H.beside host.old).out_faults (H.beside host.new).out_faults)
        (IsSome (H.contents host.new) → HoldsNoneWithin ⟦<H as Disk>⟧ records.old host.old (place_of root) nodes) e records.old records.new host.old host.new) }
{
    let mut walk = export_walk(alloc, nodes, block);
    let told = tell_below(&mut walk, records, host, root, path);
    *block = walk.teller.block;
    told?;
    Ok(())
}

// A walk that gives what the block has and behind it what it is told. Meanwhile the block is empty.
fn export_walk(alloc: Global, nodes: u32, block: &mut Bytes) -> Walk<Exporting>
    ensures block { result.teller.block ≡ block.old }
    ensures unread { result.teller.stage ≡ Stage.Unread }
    ensures left { result.left ≡ nodes }
    ensures fresh { HasVisited result.visited [] }
{
    Walk {
        alloc,
        teller: Exporting {
            block: mem::replace(block, Bytes::new(alloc)),
            stage: Stage::Unread,
        },
        left: nodes,
        visited: Visited::new(alloc),
    }
}

// How far an export came.
#[derive(Clone, Copy)]
pub enum Stage {
    // No record was read.
    Unread,
    // One was, and nothing was given.
    Held,
    // Something was given.
    Given,
}

// What isn't given yet.
#[derive(Drop)]
struct Exporting {
    block: Bytes,
    stage: Stage,
}

impl Exporting {
    ghost use Rattle.std.specs.Prelude.{◌≡◌, ◌<◌, ◌≤◌, [], length, true, false, OnOk, IfErr};
    ghost use Rattle.nx_host.specs.Disk.{Rose};
    ghost use Rattle.nx_nav.specs.Given.{GivesText, block_size};
    ghost use Rattle.nx_nav.specs.Early.{LeavesOutput, TellsText, near_giving};
    ghost use Rattle.nx_nav.specs.declared.exporting.Exporting.{Exporting};

    // Whether the block is given before more is read.
    fn is_due(&self) -> bool
        ensures few { result ≡ false → length self.now.block < block_size }
        ensures near { result ≡ false → near_giving self.now.stage self.now.block ≤ 2 }
        ensures some { result ≡ true → self.now.block ≡ [] → ⊥ }
    {
        match self.stage {
            Stage::Held => !self.block.is_empty(),
            Stage::Unread | Stage::Given => self.block.len() >= BLOCK,
        }
    }

    // Gives the block.
    fn give<H: Host>(&mut self, host: &mut H) -> Result<(), NavError>
        ensures ok { OnOk result (GivesText ⟦<H as Disk>⟧ self.old.block host.old [] self.new.block host.new) }
        ensures none { OnOk result (self.new.block ≡ []) }
        ensures given { OnOk result (self.new.stage ≡ Stage.Given) }
        ensures out { OnOk result ((self.old.block ≡ [] → ⊥) → LeavesOutput ⟦<H as Disk>⟧ host.old host.new → ⊥) }
        ensures err { IfErr result (λ e. (e ≡ NavError.Write) × Rose (H.beside host.old).out_faults (H.beside host.new).out_faults
            × ((last : Exporting) × TellsText ⟦<H as Disk>⟧ self.old.stage self.old.block host.old [] last.stage last.block host.new)) }
        ensures unread { H.reads host.new ≡ H.reads host.old }
    {
        match host.emit(self.block.as_slice()) {
            Ok(()) => {
                self.block.clear();
                self.stage = Stage::Given;
                Ok(())
            }
            Err(_) => Err(NavError::Write),
        }
    }
}

impl<H: Host> Tells<H> for Exporting {
    ghost use Rattle.std.specs.Prelude.{◌≡◌, ◌<◌, ◌≤◌, ◌++◌, true, length};
    ghost use Rattle.nx_host.specs.Disk.{Rose};
    ghost use Rattle.nx_nav.specs.Told.{told_text};
    ghost use Rattle.nx_nav.specs.Given.{block_size};
    ghost use Rattle.nx_nav.specs.Early.{TellsText, near_giving};

    ghost Contents = { true };

    ghost Told = { λ a x told b y. TellsText ⟦<H as Disk>⟧ a.stage a.block x (told_text told) b.stage b.block y };

    ghost Unwritten = { λ x y. Rose (H.beside x).out_faults (H.beside y).out_faults };

    ghost IsReady = { λ a. length a.block < block_size };

    ghost Near = { λ a. near_giving a.stage a.block };

    fn wants_contents(&self) -> bool {
        true
    }

    fn pause(&mut self, host: &mut H) -> Result<(), NavError> {
        if self.is_due() {
            return self.give(host);
        }
        Ok(())
    }

    fn finish(&mut self, host: &mut H) -> Result<(), NavError> {
        if self.block.len() >= BLOCK {
            return self.give(host);
        }
        Ok(())
    }

    fn begin(&mut self, _roots: u16, _body: &BodyView<'_>) -> Result<(), NoMemory> {
        if let Stage::Unread = self.stage {
            self.stage = Stage::Held;
        }
        Ok(())
    }

    fn open(&mut self, node: NodeView<'_>) -> Result<(), NoMemory> {
        push_start(&mut self.block, node)
    }

    fn head(&mut self, kind: Kind, name: &[u8]) -> Result<(), NoMemory> {
        push_line_start(&mut self.block, kind, name)
    }

    fn content(&mut self, bytes: &[u8]) -> Result<(), NoMemory> {
        push_escaped(&mut self.block, bytes)
    }

    fn tail(&mut self) -> Result<(), NoMemory> {
        self.block.push(b'\n')
    }

    fn close(&mut self, kind: Kind, name: &[u8]) -> Result<(), NoMemory> {
        push_end(&mut self.block, kind, name)
    }

    ghost use Rattle.std.proofs.Common.{arith};
    ghost use Rattle.std.proofs.lemmas.List.Concat.{flat_map-append};
    ghost use Rattle.nx_nav.specs.Told.{walk_step_text};
    ghost use Rattle.nx_nav.specs.GivenLaws.{gives_nothing, gives_then, unwritten_before};
    ghost use Rattle.nx_nav.specs.EarlyLaws.{nothing_between};

    ghost asked = { λ a x y still. (gives_nothing a.block still, λ left. omega arith) };

    ghost then = { λ a b c x y z s t first second. (
      gives_then a.block b.block c.block (told_text s) (told_text t) (told_text (s ++ t)) (flat_map-append walk_step_text s t) first.0 second.0,
      λ left. nothing_between first.0 second.0 left first.1 second.1,
    ) };

    ghost keeps = { λ a b x y s told. ((told.0).areas).contents_stay };

    ghost fewer_images = { λ a b x y s i told. (((told.0).areas).images_stay i).0 };

    ghost faults_later = { λ a b x y s told. ((told.0).areas).faults_later };

    ghost unwritten_later = { λ a b x y z s told unwritten. unwritten_before ((told.0).areas).out_faults_later unwritten };

    ghost output_grows = { λ a b x y s told. (((told.0).gives).done, ((told.0).gives).gave) };

    ghost near_later = { λ a b x y s told left. told.1 left };
}
