// Whether bytes are those of a stored piece, and what it weighs, without a list of its nodes.
ghost use Rattle.std.specs.Prelude.{◌≡◌, ℕ, true, false, ◌+◌, ◌*◌, ◌<◌, ◌≤◌, List, length, MatchOption};
ghost use Rattle.std.specs.Bool.{MatchBool};
ghost use Rattle.nx_piece.specs.declared.piece.Proxy.{Proxy};
ghost use Rattle.nx_piece.specs.declared.piece.Stored.{Stored};
ghost use Rattle.nx_piece.specs.Checked.{IsChecked};
ghost use Rattle.nx_piece.specs.Decoded.{IsDecoded};
ghost use Rattle.nx_piece.specs.Encoding.{proxies_bytes};
ghost use Rattle.nx_piece.specs.Flat.{seen_node};
ghost use Rattle.nx_piece.specs.Gapped.{Gapped, GappedTree, gapped_width, gapped_size, gapped_weight};
ghost use Rattle.nx_piece.specs.Reading.{alone, HasReadItems, HasTakenNode, AreNoProxies, BeginsNoTree, BeginsNoItems, BeginsNoBody, IsReadBody, IsLeft};
ghost use Rattle.nx_piece.specs.Valid.{AreTrees, HaveRoots, HaveNumbers};
ghost use Rattle.std.specs.Prelude.{None};

use crate::NodeView;
use crate::reading::{
    Head, LONGEST_INLINE, Left, has_roots, read_head, read_node, read_proxy, take_run,
};

/// What a record of a piece tells, besides its nodes and its proxies.
#[derive(Clone, Copy)]
pub struct Checked {
    /// How many roots the piece has.
    pub roots: u16,
    /// What its nodes weigh, in slots of 8 bytes; proxies weigh nothing.
    pub weight: u32,
    /// How many slots of 8 bytes their items take.
    pub size: u32,
    /// How many proxies there are.
    pub proxies: u32,
    /// The first page of the chain that holds them, if they don't stand in the record.
    pub chain: Option<u32>,
}

/// What a record of these bytes tells: `Some` exactly where they are those of a valid piece, as `view` has it, and else `None`. It looks
/// at each item, and takes no memory.
pub fn check(bytes: &[u8]) -> Option<Checked>
    ensures { MatchOption result (IsDecoded bytes.now None) (λ checked. (stored : Stored) × IsDecoded bytes.now (Some stored) × IsChecked stored checked) }
{
    let Some((head, sums, rest, length)) = check_body(bytes) else {
        return None;
    };
    let Head {
        form,
        roots,
        proxies,
        chain,
        ..
    } = head;
    let Sums { weight, size } = sums;
    match form {
        1 => {
            if chain != 0 {
                return None;
            }
            if length > LONGEST_INLINE {
                return None;
            }
            if !check_proxies(rest, proxies) {
                return None;
            }
            Some(Checked {
                roots,
                weight,
                size,
                proxies,
                chain: None,
            })
        }
        2 => {
            if length <= LONGEST_INLINE {
                return None;
            }
            if !rest.is_empty() {
                return None;
            }
            Some(Checked {
                roots,
                weight,
                size,
                proxies,
                chain: Some(chain),
            })
        }
        _ => None,
    }
}

/// Whether the bytes are so many proxies, each with 1 to 256 roots. It takes no memory.
pub fn check_proxies(bytes: &[u8], count: u32) -> bool
    ensures { MatchBool result ((proxies : List Proxy) × (bytes.now ≡ proxies_bytes proxies) × HaveRoots proxies × (length proxies ≡ count) × HaveNumbers proxies) (AreNoProxies bytes.now count) }
{
    if bytes.len() != 8 * count as usize {
        return false;
    }
    let mut rest = bytes;
    let mut fit = true;
    while let Some((proxy, behind)) = read_proxy(rest) {
        fit &= has_roots(proxy);
        rest = behind;
    }
    fit
}

// What the nodes of a record weigh, and how many slots their items take.
#[derive(Clone, Copy)]
struct Sums {
    weight: u32,
    size: u32,
}

// The head, the sums over the nodes, what stands behind them, and how many bytes the inline form takes.
fn check_body(bytes: &[u8]) -> Option<(Head, Sums, &[u8], usize)>
    ensures { MatchOption result (BeginsNoBody bytes.now) (λ found. (f : Gapped) × IsReadBody bytes.now found.0.form f found.0.proxies found.0.chain found.2.now found.3
        × (found.0.roots ≡ gapped_width f) × (found.1.weight ≡ gapped_weight f) × (found.1.size ≡ gapped_size f)) }
{
    let Some((head, behind)) = read_head(bytes) else {
        return None;
    };
    let roots = head.roots;
    let proxies = head.proxies;
    if roots == 0 {
        return None;
    }
    if roots > 256 {
        return None;
    }
    if proxies > 524288 {
        return None;
    }
    let before = Left {
        room: 256,
        proxies,
        items: head.items,
    };
    let Some((rest, left, weight)) = check_items(behind, roots, before, true) else {
        return None;
    };
    if left.proxies != 0 {
        return None;
    }
    if left.items != 0 {
        return None;
    }
    let sums = Sums {
        weight,
        size: 256 - left.room,
    };
    let length = 16 + (behind.len() - rest.len()) + 8 * proxies as usize;
    Some((head, sums, rest, length))
}

// What stands behind so many items that stand beside each other, and what they weigh. As roots they are trees alone.
#[cycle(checks)]
fn check_items(bytes: &[u8], count: u16, left: Left, are_roots: bool) -> Option<(&[u8], Left, u32)>
    requires { IsLeft left }
    ensures { MatchOption result (BeginsNoItems bytes.now left count are_roots) (λ found. (f : Gapped) × HasReadItems bytes.now left f found.0.now found.1 × (are_roots ≡ true → AreTrees f) × (gapped_width f ≡ count) × (found.2 ≡ gapped_weight f)) }
{
    let mut rest = bytes;
    let mut left = left;
    let mut weight = 0;
    let mut after_run = false;
    for _ in 0..count {
        if let Some((_, behind, after)) = take_run(rest, left, are_roots || after_run) {
            rest = behind;
            left = after;
            after_run = true;
        } else {
            let Some((behind, after, own)) = check_tree(rest, left) else {
                return None;
            };
            rest = behind;
            left = after;
            weight += own;
            after_run = false;
        }
    }
    Some((rest, left, weight))
}

// What stands behind a tree, and what it weighs.
#[cycle(checks)]
fn check_tree(bytes: &[u8], left: Left) -> Option<(&[u8], Left, u32)>
    requires { IsLeft left }
    ensures { MatchOption result (BeginsNoTree bytes.now left) (λ found. (t : GappedTree) × HasReadItems bytes.now left (alone t) found.0.now found.1 × (found.2 ≡ gapped_weight (alone t))) }
{
    let Some((node, count, behind, between)) = take_node(bytes, left) else {
        return None;
    };
    let own = node.weight();
    if count == 0 {
        return Some((behind, between, own));
    }
    let Some((rest, after, below)) = check_items(behind, count, between, false) else {
        return None;
    };
    Some((rest, after, own + below))
}

// The head of a tree that may come here, its number of child items, and what stands behind it.
fn take_node(bytes: &[u8], left: Left) -> Option<(NodeView<'_>, u16, &[u8], Left)>
    requires { IsLeft left }
    ensures { MatchOption result (BeginsNoTree bytes.now left) (λ found. HasTakenNode bytes.now left (seen_node found.0) found.1 found.2.now found.3 × (found.1 < 65536)) }
{
    if left.items == 0 {
        return None;
    }
    let Some((node, count, behind, slots)) = read_node(bytes, left.room) else {
        return None;
    };
    let left = Left {
        room: left.room - slots,
        proxies: left.proxies,
        items: left.items - 1,
    };
    Some((node, count, behind, left))
}
