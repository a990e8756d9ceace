// Contents of nodes: near ones, in their items, and far ones, in byte lists of their own.
ghost use Rattle.std.specs.Prelude.{◌≡◌, ◌+◌, ◌≤◌, length, ℕ, List as Elements, None, Some, true, false, IfOk, IfErr, OnOk};
ghost use Rattle.nx_host.specs.Disk.{Image};
ghost use Rattle.nx_host.specs.Still.{IsStill};
ghost use Rattle.nx_weights.specs.Weight.{IsShort};
ghost use Rattle.nx_links.specs.Lists.{IsListFrom};
ghost use Rattle.nx_records.specs.Words.{Held, chain_count};
ghost use Rattle.nx_records.specs.Records.{StandsFor, KeepsSaved, ComesTo, LeavesRecords, HasChanges, IsInStepWith, current_pages, page_count_of, has_ended};
ghost use Rattle.nx_records.specs.Changes.{LacksList, HasListFrom, FreesList};
ghost use Rattle.nx_records.specs.Refusals.{NotRead, NotChanged, NotStored, RunsOn};
ghost use Rattle.nx_piece.specs.declared.piece.Far.{Far};
ghost use Rattle.nx_piece.specs.PieceNode.{content_length};
ghost use Rattle.nx_piece.specs.Gapped.{Grow, End};
ghost use Rattle.nx_piece.specs.Valid.{AreFar, AreNear};
ghost use Rattle.nx_hold.specs.Pieces.{HasContent, IsNamedNowhere};
ghost use Rattle.nx_hold.specs.Contents.{IsItemOfNode, IsNodeHeld, IsContentOf, LacksContent, HasItsContent, IsUnnamed, FreesContent, content_pages, content_page, far_pages};
ghost use Rattle.nx_hold.specs.Changes.{ComesTidyWhere, ComesWhere};

use nx_host::Disk;
use nx_piece::{Far, Items, PieceTree};
use nx_records::{Records, StoreError};
use nx_tree::{Bytes, Node};
use nx_weights::LONGEST_NEAR;
use std::alloc::Global;

/// The node as a piece has it, without children: a content of more than 1,024 bytes is written as a byte
/// list, which the answer names; any other stays with it. Name and content have at most 1,048,576 bytes
/// together.
///
/// Errors: `Full`, over sound pages only where fewer pages were free than one for each 8,184 bytes begun
/// of such a content; `Damaged` with page 0, only where the pages aren't sound; `Disk`, only where
/// `faults` rose; `Ended` exactly where the records had ended; `Memory`. After `Full` and `Memory` the
/// caller calls `abandon`.
pub fn hold_node<D: Disk>(
    alloc: Global,
    records: &mut Records,
    disk: &mut D,
    node: Node,
) -> Result<PieceTree, StoreError>
    requires { IsShort node }
    ensures still { IsStill D.Disk disk.old disk.new }
    ensures alone { IfOk result (λ made. made.below ≡ End) }
    ensures near { IfOk result (λ made. AreNear (Grow made.node made.below End) × AreFar (Grow made.node made.below End)) }
    ensures item { IfOk result (λ made. IsItemOfNode node made.node) }
    // A list that comes keeps all lists in order, by a law.
    ensures ok { IfOk result (λ made. ComesTo D.Disk records.old records.new disk.old disk.new (λ was now. IsNodeHeld node made.node was now)) }
    ensures keeps { IfOk result (λ made. RunsOn records.old records.new × KeepsSaved D.Disk records.old records.new disk.old disk.new × (HasChanges records.old → HasChanges records.new)) }
    ensures refused { IfErr result (λ e. NotStored D.Disk (λ was. content_pages node) (λ was. ⊥) 0 e records.old records.new disk.old disk.new) }
{
    if records.is_ended() {
        return Err(StoreError::Ended);
    }
    if node.content.len() <= LONGEST_NEAR as usize {
        return Ok(PieceTree {
            node,
            far: None,
            children: Items::new(alloc),
        });
    }
    let Node {
        kind,
        name,
        content,
    } = node;
    let first = records.write_list(disk, content.as_slice())?;
    Ok(PieceTree {
        node: Node {
            kind,
            name,
            content: Bytes::new(alloc),
        },
        far: Some(Far {
            first,
            length: content.len() as u32,
        }),
        children: Items::new(alloc),
    })
}

/// The content of the node, near or far. A far one is read from its list, and costs its chain pages.
///
/// Errors: `Damaged` with the list's first page, only where the pages aren't sound or no list of that
/// length is there, and always where no chain pages that hold just that length begin at that page,
/// unless the disk or memory fails; `Disk`, only where `faults` rose; `Ended` exactly where the records
/// had ended; `Memory`.
pub fn content<D: Disk>(
    alloc: Global,
    records: &mut Records,
    disk: &mut D,
    at: &PieceTree,
) -> Result<Bytes, StoreError>
    ensures still { IsStill D.Disk disk.old disk.new }
    ensures reads { D.reads disk.new ≤ D.reads disk.old + far_pages at.now.node }
    ensures long { IfOk result (λ bytes. length bytes ≡ content_length at.now.node) }
    ensures near { IfOk result (λ bytes. at.now.node.far ≡ None → bytes ≡ at.now.node.node.content) }
    ensures ok { IfOk result (λ bytes. (has_ended records.old ≡ false) × LeavesRecords records.old records.new
        × ((saved now : Held) → StandsFor D.Disk records.old disk.old saved now → (held : Elements ℕ) → IsContentOf now at.now.node held → bytes ≡ held)) }
    ensures chain { IfOk result (λ bytes. (far : Far) → at.now.node.far ≡ Some far → (was : Image) → IsInStepWith D.Disk records.old disk.old was
        → IsListFrom (page_count_of records.old) (current_pages records.old was) far.first bytes) }
    ensures refused { IfErr result (λ e. NotRead D.Disk (λ now. LacksContent now at.now.node) (content_page at.now.node) e records.old records.new disk.old disk.new) }
{
    if let Some(far) = at.far {
        return far_content(alloc, records, disk, far);
    }
    if records.is_ended() {
        return Err(StoreError::Ended);
    }
    match Bytes::from_slice(alloc, at.node.content.as_slice()) {
        Ok(bytes) => Ok(bytes),
        Err(_) => Err(StoreError::Memory),
    }
}

/// As `content`, of a far content alone, which a view has.
///
/// Errors: those of `content`.
pub fn far_content<D: Disk>(
    alloc: Global,
    records: &mut Records,
    disk: &mut D,
    far: Far,
) -> Result<Bytes, StoreError>
    ensures still { IsStill D.Disk disk.old disk.new }
    ensures reads { D.reads disk.new ≤ D.reads disk.old + chain_count far.length }
    ensures long { IfOk result (λ bytes. length bytes ≡ far.length) }
    ensures ok { IfOk result (λ bytes. (has_ended records.old ≡ false) × LeavesRecords records.old records.new
        × ((saved now : Held) → StandsFor D.Disk records.old disk.old saved now → (held : Elements ℕ) → now.lists far.first ≡ Some held → bytes ≡ held)) }
    ensures chain { IfOk result (λ bytes. (was : Image) → IsInStepWith D.Disk records.old disk.old was → IsListFrom (page_count_of records.old) (current_pages records.old was) far.first bytes) }
    ensures refused { IfErr result (λ e. NotRead D.Disk (λ now. LacksList now far.first far.length) far.first e records.old records.new disk.old disk.new) }
{
    records.read_list(alloc, disk, far.first, u64::from(far.length))
}

/// Takes the list of a far content away; of a near one there is none. All pieces stay where no record
/// names that list. It takes no page.
///
/// Errors: those of `content`; after `Memory` the caller calls `abandon`.
pub fn free_content<D: Disk>(
    alloc: Global,
    records: &mut Records,
    disk: &mut D,
    at: &PieceTree,
) -> Result<(), StoreError>
    ensures still { IsStill D.Disk disk.old disk.new }
    ensures ok { OnOk result (ComesTidyWhere D.Disk records.old records.new disk.old disk.new (λ was. IsUnnamed was at.now.node) (λ was now. FreesContent at.now.node was now)) }
    // Also where lists that records name are out of order.
    ensures own { OnOk result (ComesWhere D.Disk records.old records.new disk.old disk.new (λ was. HasItsContent was at.now.node) (λ was now. FreesContent at.now.node was now × (was.free ≤ now.free))) }
    ensures chain { OnOk result ((far : Far) → at.now.node.far ≡ Some far → (was : Image) → IsInStepWith D.Disk records.old disk.old was
        → HasListFrom (page_count_of records.old) (current_pages records.old was) far.first far.length) }
    ensures keeps { OnOk result (RunsOn records.old records.new × KeepsSaved D.Disk records.old records.new disk.old disk.new × (HasChanges records.old → HasChanges records.new)) }
    ensures refused { IfErr result (λ e. NotChanged D.Disk (λ was. LacksContent was at.now.node) (content_page at.now.node) e records.old records.new disk.old disk.new) }
{
    if let Some(far) = at.far {
        return free_far(alloc, records, disk, far);
    }
    if records.is_ended() {
        return Err(StoreError::Ended);
    }
    Ok(())
}

/// As `free_content`, of a far content alone.
///
/// Errors: those of `free_content`.
pub fn free_far<D: Disk>(
    alloc: Global,
    records: &mut Records,
    disk: &mut D,
    far: Far,
) -> Result<(), StoreError>
    ensures still { IsStill D.Disk disk.old disk.new }
    ensures ok { OnOk result (ComesTidyWhere D.Disk records.old records.new disk.old disk.new (λ was. HasContent was far × IsNamedNowhere was far.first) (λ was now. FreesList far.first was now)) }
    // Also where lists that records name are out of order.
    ensures own { OnOk result (ComesWhere D.Disk records.old records.new disk.old disk.new (λ was. HasContent was far) (λ was now. FreesList far.first was now × (was.free ≤ now.free))) }
    ensures chain { OnOk result ((was : Image) → IsInStepWith D.Disk records.old disk.old was → HasListFrom (page_count_of records.old) (current_pages records.old was) far.first far.length) }
    ensures keeps { OnOk result (RunsOn records.old records.new × KeepsSaved D.Disk records.old records.new disk.old disk.new × (HasChanges records.old → HasChanges records.new)) }
    ensures refused { IfErr result (λ e. NotChanged D.Disk (λ was. LacksList was far.first far.length) far.first e records.old records.new disk.old disk.new) }
{
    records.free_list(alloc, disk, far.first, u64::from(far.length))
}
