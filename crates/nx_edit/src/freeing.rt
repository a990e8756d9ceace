// Far contents that an edit drops: which they are, and their lists, which go when no record names them any more.
ghost use Rattle.std.specs.Prelude.{◌≡◌, ◌++◌, [], map, false, IfErr, OnOk};
ghost use Rattle.std.specs.Option.{option_to_list};
ghost use Rattle.nx_host.specs.Still.{IsStill};
ghost use Rattle.nx_records.specs.Records.{KeepsSaved, HasChanges, has_ended};
ghost use Rattle.nx_records.specs.Refusals.{RunsOn};
ghost use Rattle.nx_piece.specs.Contents.{fars_in};
ghost use Rattle.nx_piece.specs.Gapped.{End, Grow};
ghost use Rattle.nx_hold.specs.Changes.{ComesTidyWhere};
ghost use Rattle.nx_hold.specs.Documents.{MovesRecords};
ghost use Rattle.nx_edit.specs.Removing.{AreUnnamed, NotFreed};

use nx_hold::free_far;
use nx_host::Disk;
use nx_lists::NoMemory;
use nx_piece::{Far, Item, PieceTree};
use nx_records::{Records, StoreError};
use std::alloc::Global;

// Takes the lists of these contents away. It needs no page.
pub(crate) fn free_all<D: Disk>(
    alloc: Global,
    records: &mut Records,
    disk: &mut D,
    gone: &[Far],
) -> Result<(), StoreError>
    requires runs { has_ended records.old ≡ false }
    ensures still { IsStill D.Disk disk.old disk.new }
    ensures ok { OnOk result (ComesTidyWhere D.Disk records.old records.new disk.old disk.new (λ was. AreUnnamed was gone.now) (λ was now. MovesRecords [] [] (map (λ far. far.first) gone.now) [] 0 was now)) }
    ensures keeps { OnOk result (RunsOn records.old records.new × KeepsSaved D.Disk records.old records.new disk.old disk.new × (HasChanges records.old → HasChanges records.new)) }
    ensures refused { IfErr result (λ e. NotFreed D.Disk gone.now e records.old records.new disk.old disk.new) }
{
    for far in gone {
        free_far(alloc, records, disk, *far)?;
    }
    Ok(())
}

// Adds the far contents of the nodes of a tree, in document order.
pub(crate) fn push_fars(tree: &PieceTree, gone: &mut Vec<Far>) -> Result<(), NoMemory>
    ensures { OnOk result (gone.new.items ≡ gone.old.items ++ fars_in (Grow tree.now.node tree.now.below End)) }
{
    push_far(tree.far, gone)?;
    for item in tree.children.as_slice() {
        if let Item::Tree(child) = item {
            push_fars(child, gone)?;
        }
    }
    Ok(())
}

fn push_far(far: Option<Far>, gone: &mut Vec<Far>) -> Result<(), NoMemory>
    ensures { OnOk result (gone.new.items ≡ gone.old.items ++ option_to_list far) }
{
    if let Some(far) = far {
        gone.push(far)?;
    }
    Ok(())
}
