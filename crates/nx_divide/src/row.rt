// Steps of the walk.
ghost use Rattle.std.specs.Prelude.{◌≡◌, ◌+◌, ◌-◌, ◌*◌, ◌<◌, ◌≤◌, ◌++◌, ◌∷◌, [], ℕ, List, length, take, drop, Some, OnOk, IfOk};
ghost use Rattle.std.specs.List.{sum_by};
ghost use Rattle.std.specs.Vec.Iter.{into_iter_items};
ghost use Rattle.nx_parts.specs.Marks.{marked_in};
ghost use Rattle.nx_piece.specs.declared.piece.Item.{Item as AnyItem};
ghost use Rattle.nx_piece.specs.declared.piece.Item.TheVariants.{Tree};
ghost use Rattle.nx_piece.specs.Gapped.{GappedTree, proxies_in};
ghost use Rattle.nx_piece.specs.Items.{gapped_of};
ghost use Rattle.nx_divide.specs.Rows.{with_proxies};

use nx_build::add_proxy;
use nx_parts::{Mark, holder_in};
use nx_piece::{Item, PieceTree, Proxies, Proxy};
use nx_tree::NoMemory;
use std::vec::IntoIter;

// Moves a run of proxies that stand, and answers how many trees they stand for.
pub(crate) fn keep_run(
    items: &mut Vec<Item>,
    proxies: &mut Proxies,
    olds: &mut IntoIter<Proxy>,
    count: u32,
) -> Result<usize, NoMemory>
    requires room { proxies_in (gapped_of items.old.items) + count ≤ 524288 }
    requires there { count ≤ length (into_iter_items olds.old) }
    ensures items { OnOk result (gapped_of items.new.items ≡ with_proxies count (gapped_of items.old.items)) }
    ensures proxies { OnOk result (proxies.new ≡ proxies.old ++ take count (into_iter_items olds.old)) }
    ensures olds { OnOk result (into_iter_items olds.new ≡ drop count (into_iter_items olds.old)) }
    ensures roots { IfOk result (λ roots. roots ≡ sum_by (λ proxy. proxy.roots) (take count (into_iter_items olds.old))) }
    ensures few { IfOk result (λ roots. roots ≤ 65535 * count) }
{
    let mut roots = 0;
    for _ in 0..count {
        let proxy = next_proxy(olds);
        roots += usize::from(proxy.roots);
        add_proxy(items, proxies, proxy)?;
    }
    Ok(roots)
}

// The first of the proxies that are left.
fn next_proxy(olds: &mut IntoIter<Proxy>) -> Proxy
    requires { 1 ≤ length (into_iter_items olds.old) }
    ensures { into_iter_items olds.old ≡ result ∷ into_iter_items olds.new }
{
    let Some(proxy) = olds.next() else {
        unreachable!()
    };
    proxy
}

// The first of the items that are left.
pub(crate) fn next_item(left: &mut IntoIter<Item>) -> Item
    requires { 1 ≤ length (into_iter_items left.old) }
    ensures { into_iter_items left.old ≡ result ∷ into_iter_items left.new }
{
    let Some(item) = left.next() else {
        unreachable!()
    };
    item
}

// The first of the items that are left, which is a tree.
pub(crate) fn next_tree(left: &mut IntoIter<Item>) -> PieceTree
    requires { (tree : GappedTree) × (others : List AnyItem) × (into_iter_items left.old ≡ Tree tree ∷ others) }
    ensures { into_iter_items left.old ≡ Tree result ∷ into_iter_items left.new }
{
    let Item::Tree(tree) = next_item(left) else {
        unreachable!()
    };
    tree
}

// The first of the trees that are left.
pub(crate) fn next_root(left: &mut IntoIter<PieceTree>) -> PieceTree
    requires { 1 ≤ length (into_iter_items left.old) }
    ensures { into_iter_items left.old ≡ result ∷ into_iter_items left.new }
{
    let Some(tree) = left.next() else {
        unreachable!()
    };
    tree
}

// Where the members of the last interval begin, of so many trees that are members of intervals.
pub(crate) fn last_begin(marks: &[Mark], len: usize) -> usize
    requires { 1 ≤ len }
    ensures within { result < len }
    ensures held { (position : ℕ) → result ≤ position → position < len → marked_in marks.now position [] ≡ marked_in marks.now (len - 1) [] }
    ensures begins { (position : ℕ) → position + 1 ≡ result → marked_in marks.now position [] ≡ marked_in marks.now (len - 1) [] → ⊥ }
{
    let holder = holder_in(marks, len - 1);
    let mut first = len - 1;
    while first > 0 && holder_in(marks, first - 1) == holder {
        first -= 1;
    }
    first
}
