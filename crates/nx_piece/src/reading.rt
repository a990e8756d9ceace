// The bytes of a stored piece, read.
ghost use Rattle.std.specs.Prelude.{◌≡◌, ℕ, true, false, ◌+◌, ◌*◌, ◌<◌, ◌≤◌, List, [], ◌∷◌, ◌++◌, length, slice_get, slice_set, Some, IfOk, MatchOption};
ghost use Rattle.std.proofs.Math.ListN.{replicate};
ghost use Rattle.std.specs.Bool.{MatchBool};
ghost use Rattle.std.specs.Vec.{vec_len, vec_capacity};
ghost use Rattle.nx_tree.specs.declared.node.Kind.{Kind};
ghost use Rattle.nx_piece.specs.Encoding.{kind_byte, node_head_bytes, node_bytes, content_bytes, run_bytes, items_head_bytes, proxies_head_bytes, head_bytes, proxy_bytes, proxies_bytes};
ghost use Rattle.nx_piece.specs.PieceNode.{item_slots, MayBeFar, HasFarPage};
ghost use Rattle.nx_piece.specs.Gapped.{Gapped, GappedTree, End, Grow, Gap, gapped_width};
ghost use Rattle.nx_piece.specs.declared.piece.Proxy.{Proxy};
ghost use Rattle.nx_piece.specs.Valid.{AreTrees, HaveRoots, HaveNumbers};
ghost use Rattle.nx_piece.specs.Decoded.{IsDecoded};
ghost use Rattle.nx_piece.specs.declared.viewing.NodeView.{NodeView};
ghost use Rattle.nx_piece.specs.declared.viewing.Flat.TheVariants.{Tree};
ghost use Rattle.nx_piece.specs.Flat.{seen_node};
ghost use Rattle.nx_piece.specs.Viewing.{viewed};
ghost use Rattle.nx_piece.specs.Reading.{alone, HasReadItems, HasPushed, AreNoProxies, BeginsNoTree, BeginsNoRun, BeginsNoItems, BeginsNoBody, BeginsNoNode, BeginsNoNodeHead, BeginsNoContent, AreNoContent, IsContent, BeginsNoRunItem, BeginsNoHead, BeginsNoItemsHead, BeginsNoProxiesHead, IsHeadRead, IsReadBody, HasTakenNode, IsLeft};

use crate::viewing::Flat;
use crate::{BodyView, Far, NodeView, PieceView, Proxies, Proxy, StoredView};
use nx_tree::{Kind, NoMemory};
use nx_weights::LONGEST_NEAR;
use std::alloc::Global;

// The most bytes of a record with its proxies.
pub(crate) const LONGEST_INLINE: usize = 8176;

/// What a record of these bytes holds, seen in them: `Some` of a valid piece exactly where they are the bytes of it,
/// and else `None`. Of a piece whose proxies stand in a chain only the number of them is looked at. It takes memory
/// for at most one entry for each 8 bytes.
///
/// Errors: `NoMemory`.
pub fn view<'a>(alloc: Global, bytes: &'a [u8]) -> Result<Option<StoredView<'a>>, NoMemory>
    ensures { IfOk result (λ read. IsDecoded bytes.now (viewed read)) }
{
    let Some((head, body, rest, length)) = read_body(alloc, bytes)? else {
        return Ok(None);
    };
    let chain = head.chain;
    let count = head.proxies;
    match head.form {
        1 => {
            if chain != 0 {
                return Ok(None);
            }
            if length > LONGEST_INLINE {
                return Ok(None);
            }
            let Some(proxies) = decode_proxies(alloc, rest, count)? else {
                return Ok(None);
            };
            Ok(Some(StoredView::Inline(PieceView { body, proxies })))
        }
        2 => {
            if length <= LONGEST_INLINE {
                return Ok(None);
            }
            if !rest.is_empty() {
                return Ok(None);
            }
            Ok(Some(StoredView::Chained { body, count, chain }))
        }
        _ => Ok(None),
    }
}

/// So many proxies, each with 1 to 256 roots, exactly where the bytes are those of them, and else
/// `None`. A chain holds proxies so.
///
/// Errors: `NoMemory`.
pub fn decode_proxies(alloc: Global, bytes: &[u8], count: u32) -> Result<Option<Proxies>, NoMemory>
    ensures { IfOk result (λ read. MatchOption read (AreNoProxies bytes.now count) (λ proxies. (bytes.now ≡ proxies_bytes proxies) × HaveRoots proxies × (length proxies ≡ count) × HaveNumbers proxies)) }
{
    let room = count as usize;
    if bytes.len() != 8 * room {
        return Ok(None);
    }
    let mut proxies = Vec::with_capacity(alloc, room)?;
    let mut rest = bytes;
    let mut fit = true;
    while let Some((proxy, behind)) = read_proxy(rest) {
        fit &= has_roots(proxy);
        proxies.push_reserved(proxy);
        rest = behind;
    }
    if !fit {
        return Ok(None);
    }
    Ok(Some(Proxies::from_vec(proxies)))
}

// The head, the nodes, what stands behind them, and how many bytes the inline form takes.
fn read_body<'a>(
    alloc: Global,
    bytes: &'a [u8],
) -> Result<Option<(Head, BodyView<'a>, &'a [u8], usize)>, NoMemory>
    ensures { IfOk result (λ read. MatchOption read (BeginsNoBody bytes.now) (λ found. IsReadBody bytes.now found.0.form found.1.roots found.0.proxies found.0.chain found.2.now found.3)) }
{
    let Some((head, behind)) = read_head(bytes) else {
        return Ok(None);
    };
    let roots = head.roots;
    let proxies = head.proxies;
    let room = head.items as usize;
    if roots == 0 {
        return Ok(None);
    }
    if roots > 256 {
        return Ok(None);
    }
    if proxies > 524288 {
        return Ok(None);
    }
    if room > behind.len() / 8 {
        return Ok(None);
    }
    let before = Left {
        room: 256,
        proxies,
        items: head.items,
    };
    let mut flat = Vec::with_capacity(alloc, room)?;
    let Some((rest, left)) = read_items(&mut flat, behind, roots, before, true) else {
        return Ok(None);
    };
    if left.proxies != 0 {
        return Ok(None);
    }
    if left.items != 0 {
        return Ok(None);
    }
    let body = BodyView::new(flat, roots, 256 - left.room);
    let length = 16 + (behind.len() - rest.len()) + 8 * proxies as usize;
    Ok(Some((head, body, rest, length)))
}

// Adds so many items that stand beside each other, to any depth, to the flat list; what stands behind them. As roots they
// are trees alone.
#[cycle(items)]
fn read_items<'a>(
    flat: &mut Vec<Flat<'a>>,
    bytes: &'a [u8],
    count: u16,
    left: Left,
    are_roots: bool,
) -> Option<(&'a [u8], Left)>
    requires few { IsLeft left }
    requires room { vec_len flat.old + left.items ≤ vec_capacity flat.old }
    ensures items { MatchOption result (BeginsNoItems bytes.now left count are_roots) (λ found. (f : Gapped) × HasPushed flat.old.items flat.new.items f × HasReadItems bytes.now left f found.0.now found.1 × (are_roots ≡ true → AreTrees f) × (gapped_width f ≡ count)) }
    ensures capacity { vec_capacity flat.new ≡ vec_capacity flat.old }
{
    let mut rest = bytes;
    let mut left = left;
    let mut after_run = false;
    for _ in 0..count {
        if let Some((run, behind, after)) = take_run(rest, left, are_roots || after_run) {
            flat.push_reserved(Flat::Run { count: run });
            rest = behind;
            left = after;
            after_run = true;
        } else {
            let Some((behind, after)) = read_tree(flat, rest, left) else {
                return None;
            };
            rest = behind;
            left = after;
            after_run = false;
        }
    }
    Some((rest, left))
}

// Adds a tree, to any depth, to the flat list; what stands behind it.
#[cycle(items)]
fn read_tree<'a>(flat: &mut Vec<Flat<'a>>, bytes: &'a [u8], left: Left) -> Option<(&'a [u8], Left)>
    requires few { IsLeft left }
    requires room { vec_len flat.old + left.items ≤ vec_capacity flat.old }
    ensures tree { MatchOption result (BeginsNoTree bytes.now left) (λ found. (t : GappedTree) × HasPushed flat.old.items flat.new.items (alone t) × HasReadItems bytes.now left (alone t) found.0.now found.1) }
    ensures capacity { vec_capacity flat.new ≡ vec_capacity flat.old }
{
    let place = flat.len();
    let Some((count, behind, between)) = push_tree_head(flat, bytes, left) else {
        return None;
    };
    if count == 0 {
        return Some((behind, between));
    }
    let Some((rest, after)) = read_items(flat, behind, count, between, false) else {
        return None;
    };
    set_below(flat, place, between.items - after.items);
    Some((rest, after))
}

// Adds the head of a tree that may come here to the flat list; its number of child items, and what stands behind it.
fn push_tree_head<'a>(
    flat: &mut Vec<Flat<'a>>,
    bytes: &'a [u8],
    left: Left,
) -> Option<(u16, &'a [u8], Left)>
    requires few { IsLeft left }
    requires room { vec_len flat.old + left.items ≤ vec_capacity flat.old }
    ensures node { MatchOption result (BeginsNoTree bytes.now left) (λ found. (node : NodeView) × (flat.new.items ≡ flat.old.items ++ Tree node 0 ∷ []) × HasTakenNode bytes.now left (seen_node node) found.0 found.1.now found.2 × (found.0 < 65536)) }
    ensures capacity { vec_capacity flat.new ≡ vec_capacity flat.old }
{
    if left.items == 0 {
        return None;
    }
    let Some((node, count, behind, slots)) = read_node(bytes, left.room) else {
        return None;
    };
    let left = Left {
        room: left.room - slots,
        proxies: left.proxies,
        items: left.items - 1,
    };
    flat.push_reserved(Flat::Tree { node, below: 0 });
    Some((count, behind, left))
}

// Notes how many items stand below the node at this place of the flat list.
fn set_below(flat: &mut Vec<Flat<'_>>, place: usize, below: u32)
    requires { place < vec_len flat.old }
    ensures below { (node : NodeView) → slice_get flat.old.items place ≡ Some (Tree node 0) → flat.new.items ≡ slice_set flat.old.items place (Tree node below) }
    ensures capacity { vec_capacity flat.new ≡ vec_capacity flat.old }
{
    if let Flat::Tree { node, .. } = flat[place] {
        flat[place] = Flat::Tree { node, below };
    }
}

// What the rest of a piece may have: slots of nodes, proxies and items.
#[derive(Clone, Copy)]
pub(crate) struct Left {
    pub(crate) room: u32,
    pub(crate) proxies: u32,
    pub(crate) items: u32,
}

// A run that may come here, and what stands behind it.
pub(crate) fn take_run(bytes: &[u8], left: Left, after_run: bool) -> Option<(u32, &[u8], Left)>
    ensures { MatchOption result (BeginsNoRun bytes.now left after_run) (λ read. (after_run ≡ false) × HasReadItems bytes.now left (Gap read.0 End) read.1.now read.2) }
{
    if after_run || left.items == 0 {
        return None;
    }
    let (count, behind) = read_run(bytes)?;
    if count == 0 || left.proxies < count {
        return None;
    }
    let left = Left {
        room: left.room,
        proxies: left.proxies - count,
        items: left.items - 1,
    };
    Some((count, behind, left))
}

/// A node with its number of child items, what stands behind its own item, and how many slots that takes; exactly where the bytes
/// begin with a node whose item takes at most so many. It takes no memory.
#[inline(always)]
pub fn read_node(bytes: &[u8], room: u32) -> Option<(NodeView<'_>, u16, &[u8], u32)>
    requires { room ≤ 256 }
    ensures { MatchOption result (BeginsNoNode bytes.now room) (λ found. (bytes.now ≡ node_bytes (seen_node found.0) found.1 ++ found.2.now) × (found.3 ≡ item_slots (seen_node found.0)) × (item_slots (seen_node found.0) ≤ room) × MayBeFar (seen_node found.0) × HasFarPage found.0.far × (found.1 < 65536)) }
{
    let Some((kind, far, name, content, items, behind)) = read_node_head(bytes) else {
        return None;
    };
    let slots = 1 + (usize::from(name) + usize::from(content)).div_ceil(8) as u32;
    if slots > room {
        return None;
    }
    let Some((name, content, rest)) = read_content(behind, name, content) else {
        return None;
    };
    let Some(node) = node_with(kind, far, name, content) else {
        return None;
    };
    Some((node, items, rest, slots))
}

// The node with these bytes in its content's place: a far one says there where the content stands.
fn node_with<'a>(kind: Kind, far: u8, name: &'a [u8], content: &'a [u8]) -> Option<NodeView<'a>>
    requires { far ≤ 1 }
    ensures { MatchOption result (AreNoContent far content.now) (λ node. IsContent far content.now (seen_node node) × (node.kind ≡ kind) × (node.name.now ≡ name.now)) }
{
    if far == 0 {
        return Some(NodeView {
            kind,
            name,
            content,
            far: None,
        });
    }
    let [p3, p2, p1, p0, l3, l2, l1, l0] = content else {
        return None;
    };
    let first = u32::from_be_bytes([*p3, *p2, *p1, *p0]);
    let length = u32::from_be_bytes([*l3, *l2, *l1, *l0]);
    if length <= LONGEST_NEAR || length > 1_048_576 {
        return None;
    }
    Some(NodeView {
        kind,
        name,
        content: &content[..0],
        far: Some(Far { first, length }),
    })
}

fn read_node_head(bytes: &[u8]) -> Option<(Kind, u8, u16, u16, u16, &[u8])>
    ensures { MatchOption result (BeginsNoNodeHead bytes.now) (λ read. (bytes.now ≡ node_head_bytes read.0 read.1 read.2 read.3 read.4 ++ read.5.now) × (read.1 ≤ 1) × (read.2 < 65536) × (read.3 < 65536) × (read.4 < 65536)) }
{
    let [byte, far, n1, n0, c1, c0, i1, i0, rest @ ..] = bytes else {
        return None;
    };
    if *far > 1 {
        return None;
    }
    let name = u16::from_be_bytes([*n1, *n0]);
    let content = u16::from_be_bytes([*c1, *c0]);
    let items = u16::from_be_bytes([*i1, *i0]);
    Some((kind_from(*byte)?, *far, name, content, items, rest))
}

fn kind_from(byte: u8) -> Option<Kind>
    ensures { MatchOption result ((kind : Kind) → byte ≡ kind_byte kind → ⊥) (λ kind. byte ≡ kind_byte kind) }
{
    match byte {
        1 => Some(Kind::Doc),
        2 => Some(Kind::Element),
        3 => Some(Kind::Attribute),
        4 => Some(Kind::Text),
        5 => Some(Kind::Instruction),
        _ => None,
    }
}

// The name and the content's place, and what stands behind them and their zero bytes.
fn read_content(bytes: &[u8], name: u16, content: u16) -> Option<(&[u8], &[u8], &[u8])>
    ensures { MatchOption result (BeginsNoContent bytes.now name content) (λ found. (bytes.now ≡ content_bytes found.0.now found.1.now ++ found.2.now) × (length found.0.now ≡ name) × (length found.1.now ≡ content)) }
{
    let name = usize::from(name);
    let end = name + usize::from(content);
    let size = 8 * end.div_ceil(8);
    if bytes.len() < size {
        return None;
    }
    if !is_zero(&bytes[end..size]) {
        return None;
    }
    Some((&bytes[..name], &bytes[name..end], &bytes[size..]))
}

fn is_zero(bytes: &[u8]) -> bool
    ensures { MatchBool result (bytes.now ≡ replicate (length bytes.now) 0) (bytes.now ≡ replicate (length bytes.now) 0 → ⊥) }
{
    for byte in bytes {
        if *byte != 0 {
            return false;
        }
    }
    true
}

/// How many proxies a run stands for, and what stands behind it, exactly where the bytes begin with a run. It takes no memory.
pub fn read_run(bytes: &[u8]) -> Option<(u32, &[u8])>
    ensures { MatchOption result (BeginsNoRunItem bytes.now) (λ read. bytes.now ≡ run_bytes read.0 ++ read.1.now) }
{
    match bytes {
        [6, 0, 0, 0, n3, n2, n1, n0, rest @ ..] => Some((
            u32::from_be_bytes([*n3, *n2, *n1, *n0]),
            rest,
        )),
        _ => None,
    }
}

/// The numbers that a record begins with.
#[derive(Clone, Copy)]
pub struct Head {
    /// 1 where the proxies stand in the record, 2 where they stand in a chain.
    pub form: u8,
    /// How many roots there are.
    pub roots: u16,
    /// How many nodes and runs.
    pub items: u32,
    /// How many proxies.
    pub proxies: u32,
    /// The first page of the chain, and 0 without one.
    pub chain: u32,
}

/// The numbers of a head, whatever they are, and what stands behind it; `None` only where the bytes begin with no head. It takes no
/// memory.
pub fn read_head(bytes: &[u8]) -> Option<(Head, &[u8])>
    ensures { MatchOption result (BeginsNoHead bytes.now) (λ read. IsHeadRead bytes.now read.0 read.1.now) }
{
    let Some((form, roots, items, behind)) = read_counts(bytes) else {
        return None;
    };
    let Some((proxies, chain, rest)) = read_chain(behind) else {
        return None;
    };
    let head = Head {
        form,
        roots,
        items,
        proxies,
        chain,
    };
    Some((head, rest))
}

fn read_counts(bytes: &[u8]) -> Option<(u8, u16, u32, &[u8])>
    ensures { MatchOption result (BeginsNoItemsHead bytes.now) (λ read. (bytes.now ≡ items_head_bytes read.0 read.1 read.2 ++ read.3.now) × (read.1 < 65536) × (read.2 < 4294967296)) }
{
    match bytes {
        [form, 0, r1, r0, i3, i2, i1, i0, rest @ ..] => Some((
            *form,
            u16::from_be_bytes([*r1, *r0]),
            u32::from_be_bytes([*i3, *i2, *i1, *i0]),
            rest,
        )),
        _ => None,
    }
}

fn read_chain(bytes: &[u8]) -> Option<(u32, u32, &[u8])>
    ensures { MatchOption result (BeginsNoProxiesHead bytes.now) (λ read. (bytes.now ≡ proxies_head_bytes read.0 read.1 ++ read.2.now) × (read.0 < 4294967296) × (read.1 < 4294967296)) }
{
    let [p3, p2, p1, p0, c3, c2, c1, c0, rest @ ..] = bytes else {
        return None;
    };
    let proxies = u32::from_be_bytes([*p3, *p2, *p1, *p0]);
    let chain = u32::from_be_bytes([*c3, *c2, *c1, *c0]);
    Some((proxies, chain, rest))
}

/// A proxy with any number of roots, and what stands behind it, exactly where there are 8 bytes. It takes no memory.
pub fn read_proxy(bytes: &[u8]) -> Option<(Proxy, &[u8])>
    ensures { MatchOption result (length bytes.now < 8) (λ read. (bytes.now ≡ proxy_bytes read.0 ++ read.1.now) × (read.0.page < 4294967296) × (read.0.slot < 65536) × (read.0.roots < 65536)) }
{
    let [p3, p2, p1, p0, s1, s0, r1, r0, rest @ ..] = bytes else {
        return None;
    };
    let proxy = Proxy {
        page: u32::from_be_bytes([*p3, *p2, *p1, *p0]),
        slot: u16::from_be_bytes([*s1, *s0]),
        roots: u16::from_be_bytes([*r1, *r0]),
    };
    Some((proxy, rest))
}

// Whether the proxy has 1 to 256 roots.
pub(crate) fn has_roots(proxy: Proxy) -> bool
    ensures { MatchBool result ((1 ≤ proxy.roots) × (proxy.roots ≤ 256)) ((1 ≤ proxy.roots) × (proxy.roots ≤ 256) → ⊥) }
{
    proxy.roots != 0 && proxy.roots <= 256
}
