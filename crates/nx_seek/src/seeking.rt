// Where a path leads in the bytes of a record.
ghost use Rattle.std.specs.Prelude.{◌≡◌, ◌+◌, ◌<◌, ◌≤◌, ℕ, List, length, IfSome, MatchOption};
ghost use Rattle.nx_piece.specs.declared.piece.Piece.{Piece};
ghost use Rattle.nx_piece.specs.declared.piece.Proxy.{Proxy};
ghost use Rattle.nx_piece.specs.Gapped.{GappedTree, proxies_in};
ghost use Rattle.nx_piece.specs.Locate.{reached_in, children_of};
ghost use Rattle.nx_piece.specs.Reading.{IsHeadRead};
ghost use Rattle.nx_seek.specs.Children.{AreProxies, IsSpotOf};
ghost use Rattle.nx_seek.specs.Sought.{IsSought, UsesSome};
ghost use Rattle.nx_seek.specs.Written.{IsWrittenAs};

use crate::children::{Child, Spot, child_at};
use nx_piece::{Head, NodeView, Proxy, read_head};

/// Where a path leads.
#[derive(Clone, Copy)]
pub enum Sought<'a> {
    /// To this node of the record, which has so many children. A proxy counts as as many as it has roots.
    Here {
        node: NodeView<'a>,
        children: u32,
    },
    /// After `used` positions into the record of the proxy with this index, to the root `member` there.
    Away {
        proxy: Proxy,
        index: u32,
        member: u16,
        used: u32,
    },
    /// To no child of a node.
    Nowhere,
}

/// Where the path leads that begins at the root `member` of the piece with these bytes: those of its record and those of the list
/// that this names for its proxies, where it names one. `None` only where they are those of no piece. What isn't read on the way may be
/// anything: the answer says nothing of bytes that are those of no piece. It takes no memory.
pub fn seek<'a>(nodes: &'a [u8], list: &[u8], member: u16, path: &[u32]) -> Option<Sought<'a>>
    requires { length path.now < 4294967296 }
    ensures found { (piece : Piece) → IsWrittenAs piece nodes.now list.now → MatchOption result ⊥ (λ found. IsSought piece (reached_in piece member path.now) found) }
    ensures used { IfSome result (λ found. UsesSome (length path.now) found) }
{
    let Some((head, behind)) = read_head(nodes) else {
        return None;
    };
    let Some(proxies) = proxies_of(head, behind, list) else {
        return None;
    };
    let Some(root) = child_at(behind, head.roots, proxies, 0, u32::from(member)) else {
        return None;
    };
    let Child::Tree(mut spot) = root else {
        // The roots of a piece are trees.
        return Some(Sought::Nowhere);
    };
    for (used, position) in path.iter().enumerate() {
        match child_at(spot.behind, spot.items, proxies, spot.first, *position) {
            None => return None,
            Some(Child::Tree(child)) => spot = child,
            Some(
                Child::Root {
                    proxy,
                    index,
                    member,
                },
            ) => {
                return Some(Sought::Away {
                    proxy,
                    index,
                    member,
                    used: used as u32 + 1,
                });
            }
            Some(Child::Behind(_)) => return Some(Sought::Nowhere),
        }
    }
    let Some(children) = children_at(spot, proxies) else {
        return None;
    };
    Some(Sought::Here {
        node: spot.node,
        children,
    })
}

// The bytes of the proxies: the last ones of the record, or the list.
fn proxies_of<'a>(head: Head, behind: &'a [u8], list: &'a [u8]) -> Option<&'a [u8]>
    ensures { (piece : Piece) (nodes : List ℕ) → IsWrittenAs piece nodes list.now → IsHeadRead nodes head behind.now → MatchOption result ⊥ (λ proxies. AreProxies proxies.now piece.proxies) }
{
    if head.form != 1 {
        return Some(list);
    }
    let size = 8 * head.proxies as usize;
    if behind.len() < size {
        return None;
    }
    Some(&behind[behind.len() - size..])
}

// How many children the node has.
fn children_at(spot: Spot<'_>, proxies: &[u8]) -> Option<u32>
    ensures { (tree : GappedTree) (all : List Proxy) → IsSpotOf spot.entry tree → AreProxies proxies.now all → spot.entry.first + proxies_in tree.below ≤ length all
        → MatchOption result ⊥ (λ children. children ≡ length (children_of all spot.entry.first tree.below)) }
{
    match child_at(spot.behind, spot.items, proxies, spot.first, u32::MAX) {
        None => None,
        // No node has so many.
        Some(Child::Tree(_)) => None,
        Some(Child::Root { .. }) => None,
        Some(Child::Behind(left)) => Some(u32::MAX - left),
    }
}
