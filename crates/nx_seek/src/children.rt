// The children of a node in the bytes of a record, those among them that its proxies stand for.
ghost use Rattle.std.specs.Prelude.{◌≡◌, ℕ, ◌+◌, ◌≤◌, List, length, MatchOption};
ghost use Rattle.nx_piece.specs.declared.piece.Proxy.{Proxy};
ghost use Rattle.nx_piece.specs.Gapped.{Gapped, gapped_width, proxies_in};
ghost use Rattle.nx_seek.specs.Items.{ItemsStandIn};
ghost use Rattle.nx_seek.specs.Children.{AreProxies, IsMember, IsChildFound, IsStep};

use crate::items::{Item, pass_items, read_item};
use nx_piece::{NodeView, Proxy, read_proxy};

// A node, how many child items it has, and what stands behind its own item, these first. So many proxies stand before them.
#[derive(Clone, Copy)]
pub(crate) struct Spot<'a> {
    pub node: NodeView<'a>,
    pub items: u16,
    pub behind: &'a [u8],
    pub first: u32,
}

// What stands at a position among children.
#[derive(Clone, Copy)]
pub(crate) enum Child<'a> {
    // A node of the record.
    Tree(Spot<'a>),
    // The root `member` of the record of the proxy with this index.
    Root {
        proxy: Proxy,
        index: u32,
        member: u16,
    },
    // Nothing: so many positions are left behind the last child.
    Behind(u32),
}

// What stands at a position among the roots of some proxies.
#[derive(Clone, Copy)]
enum Member {
    // The root `member` of the record of the proxy with this index.
    Root {
        proxy: Proxy,
        index: u32,
        member: u16,
    },
    // Nothing: so many positions are left behind the last root.
    Behind(u32),
}

// What one item tells of a position.
#[derive(Clone, Copy)]
enum Step<'a> {
    Found(Child<'a>),
    // It is further on: behind so many proxies, and so many positions are left.
    On {
        behind: &'a [u8],
        before: u32,
        left: u32,
    },
}

// What stands at a position among so many items, before which `first` of the proxies stand.
pub(crate) fn child_at<'a>(
    bytes: &'a [u8],
    items: u16,
    proxies: &[u8],
    first: u32,
    position: u32,
) -> Option<Child<'a>>
    ensures { (f : Gapped) (tail : List ℕ) (all : List Proxy) → ItemsStandIn bytes.now f tail → gapped_width f ≡ items → AreProxies proxies.now all → first + proxies_in f ≤ length all
        → MatchOption result ⊥ (λ found. IsChildFound all first f position found) }
{
    let mut rest = bytes;
    let mut before = first;
    let mut left = position;
    for _ in 0..items {
        match step_on(rest, proxies, before, left) {
            None => return None,
            Some(Step::Found(child)) => return Some(child),
            Some(
                Step::On {
                    behind,
                    before: passed,
                    left: over,
                },
            ) => {
                rest = behind;
                before = passed;
                left = over;
            }
        }
    }
    Some(Child::Behind(left))
}

// What the item tells of a position that the bytes begin with.
fn step_on<'a>(bytes: &'a [u8], proxies: &[u8], first: u32, position: u32) -> Option<Step<'a>>
    ensures { (f : Gapped) (tail : List ℕ) (all : List Proxy) → ItemsStandIn bytes.now f tail → 1 ≤ gapped_width f → AreProxies proxies.now all → first + proxies_in f ≤ length all
        → IsStep all first position f tail result }
{
    match read_item(bytes) {
        None => None,
        Some(Item::Run { count, behind }) => {
            let Some(before) = first.checked_add(count) else {
                return None;
            };
            match member_at(proxies, first, count, position) {
                None => None,
                Some(
                    Member::Root {
                        proxy,
                        index,
                        member,
                    },
                ) => Some(Step::Found(Child::Root {
                    proxy,
                    index,
                    member,
                })),
                Some(Member::Behind(left)) => Some(Step::On {
                    behind,
                    before,
                    left,
                }),
            }
        }
        Some(
            Item::Node {
                node,
                items,
                behind,
            },
        ) => {
            if position == 0 {
                return Some(Step::Found(Child::Tree(Spot {
                    node,
                    items,
                    behind,
                    first,
                })));
            }
            let Some((rest, count)) = pass_items(behind, items) else {
                return None;
            };
            let Some(before) = first.checked_add(count) else {
                return None;
            };
            Some(Step::On {
                behind: rest,
                before,
                left: position - 1,
            })
        }
    }
}

// What stands at a position among the roots of so many of the proxies, from one on.
fn member_at(proxies: &[u8], first: u32, count: u32, position: u32) -> Option<Member>
    requires { first + count ≤ 4294967295 }
    ensures { (all : List Proxy) → AreProxies proxies.now all → first + count ≤ length all → IsMember all first count position result }
{
    let start = 8 * first as usize;
    if proxies.len() < start {
        return None;
    }
    let mut rest = &proxies[start..];
    let mut left = position;
    for offset in 0..count {
        let Some((proxy, behind)) = read_proxy(rest) else {
            return None;
        };
        let roots = u32::from(proxy.roots);
        if left < roots {
            return Some(Member::Root {
                proxy,
                index: first + offset,
                member: left as u16,
            });
        }
        left -= roots;
        rest = behind;
    }
    Some(Member::Behind(left))
}
