// Records that stay as they are where an edit changes nothing in them.
ghost use Rattle.std.specs.Prelude.{◌≡◌, ◌∷◌, [], ℕ, Some, IsTrue, ◌↔◌};
ghost use Rattle.nx_piece.specs.declared.piece.Item.TheVariants.{Run};
ghost use Rattle.nx_divide.specs.Dividing.{IsRowWithin};
ghost use Rattle.nx_hold.specs.Changes.{place_named, place_of};
ghost use Rattle.nx_edit.specs.RowPut.{IsOneProxy};

use nx_divide::Row;
use nx_piece::{Item, Proxy};
use nx_records::Rid;

// The proxy of a record whose piece has so many roots.
pub(crate) fn own_proxy(rid: Rid, roots: u16) -> Proxy
    ensures place { place_named result ≡ place_of rid }
    ensures roots { result.roots ≡ roots }
{
    Proxy {
        page: rid.page,
        slot: rid.slot,
        roots,
    }
}

// The row is this proxy alone.
pub(crate) fn is_alone(row: &Row, proxy: Proxy) -> bool
    requires { IsRowWithin 256 row.now }
    ensures { IsTrue result ↔ IsOneProxy row.now proxy }
{
    is_run(row.items.as_slice()) && is_one(row.proxies.as_slice(), proxy)
}

// The items are one run.
fn is_run(items: &[Item]) -> bool
    ensures { IsTrue result ↔ ((count : ℕ) × (items.now ≡ Run count ∷ [])) }
{
    items.len() == 1 && matches!(&items[0], Item::Run { .. })
}

// These are this proxy alone.
fn is_one(proxies: &[Proxy], proxy: Proxy) -> bool
    ensures { IsTrue result ↔ (proxies.now ≡ proxy ∷ []) }
{
    proxies.len() == 1 && is_same(proxies[0], proxy)
}

// What is left of an interval has the proxy that it had.
pub(crate) fn is_left_same(left: Option<Proxy>, proxy: Proxy) -> bool
    ensures { IsTrue result ↔ (left ≡ Some proxy) }
{
    match left {
        Some(left) => is_same(left, proxy),
        None => false,
    }
}

fn is_same(one: Proxy, other: Proxy) -> bool
    ensures { IsTrue result ↔ (one ≡ other) }
{
    one == other
}
