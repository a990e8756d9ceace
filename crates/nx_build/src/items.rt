// Steps of the walk.
ghost use Rattle.std.specs.Prelude.{◌≡◌, ◌+◌, ◌<◌, ◌≤◌, ◌++◌, ◌∷◌, [], ℕ, length, Some, OnOk};
ghost use Rattle.std.specs.Vec.Iter.{into_iter_items};
ghost use Rattle.nx_parts.specs.Marks.{marked_in};
ghost use Rattle.nx_piece.specs.Gapped.{proxies_in};
ghost use Rattle.nx_piece.specs.declared.piece.Item.TheVariants.{Run};
ghost use Rattle.nx_piece.specs.Items.{gapped_of, with_last};
ghost use Rattle.nx_build.specs.Rows.{with_proxy, last_gap};

use nx_parts::{Mark, holder_in};
use nx_piece::{Item, Proxies, Proxy};
use nx_tree::{NoMemory, Tree};
use std::vec::IntoIter;

/// Adds a proxy, and counts it in the run at the end of the items, or in a new one. They have fewer than 524,288
/// proxies before.
///
/// Errors: out of memory.
pub fn add_proxy(items: &mut Vec<Item>, proxies: &mut Proxies, proxy: Proxy) -> Result<(), NoMemory>
    requires { proxies_in (gapped_of items.old.items) < 524288 }
    ensures items { OnOk result (gapped_of items.new.items ≡ with_proxy (gapped_of items.old.items)) }
    ensures proxies { OnOk result (proxies.new ≡ proxies.old ++ proxy ∷ []) }
{
    proxies.push(proxy)?;
    let count = take_run(items);
    items.push(Item::Run { count })?;
    Ok(())
}

// Takes the run at the end of the items away, where one is there, and answers how many proxies it has with one
// more.
fn take_run(items: &mut Vec<Item>) -> u32
    requires { proxies_in (gapped_of items.old.items) < 524288 }
    ensures { with_last (gapped_of items.new.items) (Run result) ≡ with_proxy (gapped_of items.old.items) }
{
    match last_run(items.as_slice()) {
        Some(count) => {
            items.pop();
            count + 1
        }
        None => 1,
    }
}

// How many proxies the run at the end has, where one is there.
fn last_run(items: &[Item]) -> Option<u32>
    ensures { result ≡ last_gap (gapped_of items.now) }
{
    match items.last()? {
        Item::Tree(_) => None,
        Item::Run { count } => Some(*count),
    }
}

/// Where the members of the interval end that holds the first of them, of so many trees.
pub fn members_end(marks: &[Mark], holder: u32, first: usize, len: usize) -> usize
    requires { first < len }
    ensures some { first < result }
    ensures within { result ≤ len }
    ensures held { (position : ℕ) → first < position → position < result → marked_in marks.now position [] ≡ Some holder }
    ensures ends { result < len → marked_in marks.now result [] ≡ Some holder → ⊥ }
{
    for position in first + 1..len {
        if holder_in(marks, position) != Some(holder) {
            return position;
        }
    }
    len
}

// The first of the trees that are left.
pub(crate) fn next_tree(trees: &mut IntoIter<Tree>) -> Tree
    requires { 1 ≤ length (into_iter_items trees.old) }
    ensures { into_iter_items trees.old ≡ result ∷ into_iter_items trees.new }
{
    let Some(tree) = trees.next() else {
        unreachable!()
    };
    tree
}
