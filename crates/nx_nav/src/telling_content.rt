// How a node begins for a teller: with its content, or with that behind it, block by block.
ghost use Rattle.std.specs.Prelude.{◌≡◌, ◌≢◌, ◌+◌, ◌≤◌, false, length, map, OnOk, IfOk, IfErr, OnErr};
ghost use Rattle.nx_host.specs.Disk.{Image};
ghost use Rattle.nx_host.specs.Still.{IsStill};
ghost use Rattle.nx_numbers.specs.Sizes.{page_room};
ghost use Rattle.nx_links.specs.Lists.{IsLinkAt};
ghost use Rattle.nx_records.specs.Records.{has_ended, page_count_of, current_pages, IsInStepWith, LeavesRecords};
ghost use Rattle.nx_records.specs.Changes.{HasListFrom};
ghost use Rattle.nx_records.specs.Reading.{IsBlock};
ghost use Rattle.nx_records.specs.Words.{chain_count};
ghost use Rattle.nx_hold.specs.Contents.{far_pages};
ghost use Rattle.nx_tree.specs.Document.{is_doc};
ghost use Rattle.nx_piece.specs.Flat.{seen_node};
ghost use Rattle.nx_piece.specs.PieceNode.{MayBeFar, content_length, item_slots};
ghost use Rattle.nx_nav.specs.Early.{LeavesOutput};
ghost use Rattle.nx_nav.specs.Parts.{HasNode, HasFarContent};
ghost use Rattle.nx_nav.specs.Refusals.{IsRefused};
ghost use Rattle.nx_nav.specs.Steps.{Block, begun_steps, content_blocks, content_steps};
ghost use Rattle.nx_nav.specs.Walk.{TellsEach, StopsInEach, LacksEach};

use crate::NavError;
use crate::judging::content_len;
use crate::reading::passed_on;
use crate::walking::Tells;
use nx_host::Disk;
use nx_piece::{Far, NodeView};
use nx_records::{ListReader, Records};
use nx_tree::Bytes;
use nx_weights::LONGEST_NEAR;
use std::alloc::Global;

// Tells that a node begins, with its content where that is asked for.
pub fn begin_node<D: Disk, T: Tells<D>>(
    alloc: Global,
    teller: &mut T,
    records: &mut Records,
    disk: &mut D,
    node: NodeView<'_>,
) -> Result<(), NavError>
    requires runs { has_ended records.old ≡ false }
    requires far { MayBeFar (seen_node node) }
    requires small { item_slots (seen_node node) ≤ 256 }
    ensures stays { OnOk result (LeavesRecords records.old records.new) }
    ensures told { OnOk result (TellsEach D.Disk T.Told (HasNode D.Disk records.old disk.old (seen_node node.entry)) (begun_steps T.Contents) teller.old disk.old teller.new disk.new) }
    ensures stops { OnErr result (StopsInEach D.Disk T.Told (HasNode D.Disk records.old disk.old (seen_node node.entry)) (begun_steps T.Contents) teller.old disk.old disk.new) }
    ensures refused { IfErr result (λ e. IsRefused D.Disk ⊥ (T.Unwritten disk.old disk.new) (LacksEach D.Disk disk.new (HasNode D.Disk records.old disk.old (seen_node node.entry))) e records.old records.new disk.old disk.new) }
    ensures reads { D.reads disk.new ≤ D.reads disk.old + far_pages (seen_node node.entry) }
    ensures unread { LeavesOutput D.Disk disk.old disk.new → 2 ≤ T.Near teller.old → D.reads disk.new ≤ D.reads disk.old }
    ensures near { OnOk result (LeavesOutput D.Disk disk.old disk.new → is_doc (seen_node node.entry).node.kind ≡ false → 2 ≤ T.Near teller.old → 3 ≤ T.Near teller.new) }
{
    if content_len(node) <= LONGEST_NEAR as usize {
        teller.open(node)?;
        return Ok(());
    }
    teller.head(node.kind, node.name)?;
    tell_content(alloc, teller, records, disk, node)?;
    teller.tail()?;
    Ok(())
}

// Tells the content of a node that is too long for one step, where that is asked for.
fn tell_content<D: Disk, T: Tells<D>>(
    alloc: Global,
    teller: &mut T,
    records: &mut Records,
    disk: &mut D,
    node: NodeView<'_>,
) -> Result<(), NavError>
    requires runs { has_ended records.old ≡ false }
    requires short { length node.content.now ≤ page_room }
    requires some { 1 ≤ content_length (seen_node node) }
    ensures stays { OnOk result (LeavesRecords records.old records.new) }
    ensures told { OnOk result (TellsEach D.Disk T.Told (HasNode D.Disk records.old disk.old (seen_node node.entry)) (λ n. content_steps T.Contents n.content) teller.old disk.old teller.new disk.new) }
    ensures stops { OnErr result (StopsInEach D.Disk T.Told (HasNode D.Disk records.old disk.old (seen_node node.entry)) (λ n. content_steps T.Contents n.content) teller.old disk.old disk.new) }
    ensures refused { IfErr result (λ e. IsRefused D.Disk ⊥ (T.Unwritten disk.old disk.new) (LacksEach D.Disk disk.new (HasNode D.Disk records.old disk.old (seen_node node.entry))) e records.old records.new disk.old disk.new) }
    ensures reads { D.reads disk.new ≤ D.reads disk.old + far_pages (seen_node node.entry) }
    ensures unread { LeavesOutput D.Disk disk.old disk.new → 3 ≤ T.Near teller.old → D.reads disk.new ≤ D.reads disk.old }
{
    if !teller.wants_contents() {
        return Ok(());
    }
    match node.far {
        None => {
            teller.content(node.content)?;
            Ok(())
        }
        Some(far) => tell_far(alloc, teller, records, disk, far),
    }
}

// Tells a far content page by page. Before each one the teller may give what it holds back.
fn tell_far<D: Disk, T: Tells<D>>(
    alloc: Global,
    teller: &mut T,
    records: &mut Records,
    disk: &mut D,
    far: Far,
) -> Result<(), NavError>
    requires runs { has_ended records.old ≡ false }
    ensures stays { OnOk result (LeavesRecords records.old records.new) }
    ensures told { OnOk result (TellsEach D.Disk T.Told (HasFarContent D.Disk records.old disk.old far) (λ bytes. map Block (content_blocks bytes)) teller.old disk.old teller.new disk.new) }
    ensures stops { OnErr result (StopsInEach D.Disk T.Told (HasFarContent D.Disk records.old disk.old far) (λ bytes. map Block (content_blocks bytes)) teller.old disk.old disk.new) }
    ensures refused { IfErr result (λ e. IsRefused D.Disk ⊥ (T.Unwritten disk.old disk.new) (LacksEach D.Disk disk.new (HasFarContent D.Disk records.old disk.old far)) e records.old records.new disk.old disk.new) }
    ensures reads { D.reads disk.new ≤ D.reads disk.old + chain_count far.length }
    ensures unread { LeavesOutput D.Disk disk.old disk.new → 3 ≤ T.Near teller.old → D.reads disk.new ≤ D.reads disk.old }
{
    let mut reader = match records.open_list(disk, far.first, u64::from(far.length)) {
        Ok(reader) => reader,
        Err(error) => return Err(passed_on(error)),
    };
    while reader.left() != 0 {
        teller.pause(disk)?;
        let block = block_behind(alloc, records, disk, &mut reader)?;
        teller.content(block.as_slice())?;
    }
    Ok(())
}

// The next block of a list of which some is left.
fn block_behind<D: Disk>(
    alloc: Global,
    records: &mut Records,
    disk: &mut D,
    reader: &mut ListReader,
) -> Result<Bytes, NavError>
    requires runs { has_ended records.old ≡ false }
    requires some { reader.old.left ≢ 0 }
    ensures still { IsStill D.Disk disk.old disk.new }
    ensures reads { D.reads disk.new ≤ D.reads disk.old + 1 }
    ensures stays { OnOk result (LeavesRecords records.old records.new) }
    ensures block { IfOk result (λ block. IsBlock reader.old reader.new block) }
    ensures stood { IfOk result (λ block. (was : Image) → IsInStepWith D.Disk records.old disk.old was → IsLinkAt (current_pages records.old was) reader.old.next reader.new.next block) }
    ensures refused { IfErr result (λ e. IsRefused D.Disk ⊥ ⊥ ((was : Image) → IsInStepWith D.Disk records.old disk.old was → HasListFrom (page_count_of records.old) (current_pages records.old was) reader.old.next reader.old.left → ⊥) e records.old records.new disk.old disk.new) }
{
    match records.next_block(alloc, disk, reader) {
        Ok(Some(block)) => Ok(block),
        Ok(None) => unreachable!(),
        Err(error) => Err(passed_on(error)),
    }
}
