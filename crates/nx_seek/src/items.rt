// Items one after another in the bytes of a record.
ghost use Rattle.std.specs.Prelude.{◌≡◌, ℕ, ◌<◌, ◌≤◌, List, length, IfSome, MatchOption};
ghost use Rattle.nx_piece.specs.Gapped.{Gapped, gapped_width, proxies_in};
ghost use Rattle.nx_seek.specs.Items.{ItemsStandIn, IsFirstItem, item_behind, IsItemPassed};

use nx_piece::{NodeView, read_node, read_run};

// The most slots that the nodes of a record take.
const MOST_SLOTS: u32 = 256;

// An item, and what stands behind it.
#[derive(Clone, Copy)]
pub(crate) enum Item<'a> {
    // So many proxies.
    Run {
        count: u32,
        behind: &'a [u8],
    },
    // A node with so many child items, which come next.
    Node {
        node: NodeView<'a>,
        items: u16,
        behind: &'a [u8],
    },
}

// The item that the bytes begin with.
pub(crate) fn read_item(bytes: &[u8]) -> Option<Item<'_>>
    ensures first { (f : Gapped) (tail : List ℕ) → ItemsStandIn bytes.now f tail → IsFirstItem f tail result }
    ensures shorter { IfSome result (λ item. length (item_behind item) < length bytes.now) }
{
    if let Some((count, behind)) = read_run(bytes) {
        return Some(Item::Run { count, behind });
    }
    let Some((node, items, behind, _)) = read_node(bytes, MOST_SLOTS) else {
        return None;
    };
    Some(Item::Node {
        node,
        items,
        behind,
    })
}

// What stands behind so many items beside each other and all below them, and how many proxies they stand for.
pub(crate) fn pass_items(bytes: &[u8], items: u16) -> Option<(&[u8], u32)>
    ensures { (f : Gapped) (tail : List ℕ) → ItemsStandIn bytes.now f tail → gapped_width f ≡ items → MatchOption result ⊥ (λ passed. (passed.0.now ≡ tail) × (passed.1 ≡ proxies_in f)) }
{
    let mut rest = bytes;
    let mut left = u32::from(items);
    let mut proxies: u32 = 0;
    while left != 0 {
        let Some((count, below, behind)) = pass_item(rest) else {
            return None;
        };
        let Some(more) = (left - 1).checked_add(below) else {
            return None;
        };
        let Some(sum) = proxies.checked_add(count) else {
            return None;
        };
        left = more;
        proxies = sum;
        rest = behind;
    }
    Some((rest, proxies))
}

// How many proxies an item stands for, how many child items it has, and what stands behind it.
fn pass_item(bytes: &[u8]) -> Option<(u32, u32, &[u8])>
    ensures passed { (f : Gapped) (tail : List ℕ) → ItemsStandIn bytes.now f tail → 1 ≤ gapped_width f → MatchOption result ⊥ (λ passed. IsItemPassed f tail passed.0 passed.1 passed.2.now) }
    ensures shorter { IfSome result (λ passed. length passed.2.now < length bytes.now) }
{
    match read_item(bytes) {
        None => None,
        Some(Item::Run { count, behind }) => Some((count, 0, behind)),
        Some(Item::Node { items, behind, .. }) => Some((0, u32::from(items), behind)),
    }
}
