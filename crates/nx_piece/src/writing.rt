// The bytes of a stored piece, written.
ghost use Rattle.std.specs.Prelude.{◌≡◌, ◌+◌, ◌*◌, ◌<◌, ◌≤◌, ◌∷◌, ◌++◌, length, IfOk, OnOk};
ghost use Rattle.std.proofs.Math.ListN.{replicate};
ghost use Rattle.nx_piece.specs.PieceNode.{item_slots, HasFarPage};
ghost use Rattle.nx_piece.specs.Gapped.{item_count, grown_of, gapped_width, slots_in};
ghost use Rattle.nx_piece.specs.Encoding.{two_bytes, four_bytes, kind_byte, items_head_bytes, proxies_head_bytes, content_bytes, node_head_bytes, node_bytes, run_bytes, tree_bytes, items_bytes, proxies_bytes, head_bytes, body_bytes, encoding};
ghost use Rattle.nx_piece.specs.Valid.{IsValid, IsValidPiece, is_inline, HasNumbers, HaveNumbers, HavePages, IsValidBody, IsSmall, IsSmallTree};

use crate::reading::LONGEST_INLINE;
use crate::{Body, Item, Piece, PieceTree, Proxy, Stored};
use nx_tree::{Bytes, Kind, NoMemory};
use std::alloc::Global;

/// The bytes of the record that holds the piece, which has to be valid.
///
/// Errors: `NoMemory`.
pub fn encode(alloc: Global, stored: &Stored) -> Result<Bytes, NoMemory>
    requires { IsValid stored.now }
    ensures bytes { IfOk result (λ bytes. bytes ≡ encoding stored.now) }
    ensures numbers { IfOk result (λ _. HasNumbers stored.now) }
{
    match stored {
        Stored::Inline(piece) => encode_inline(alloc, piece),
        Stored::Chained { body, count, chain } => encode_chained(alloc, body, *count, *chain),
    }
}

/// Whether a valid piece is stored with its proxies in its record, which then has at most 8,176
/// bytes. It takes no memory.
pub fn fits_inline(piece: &Piece) -> bool
    requires { IsValidPiece piece.now }
    ensures { result ≡ is_inline piece.now }
{
    // Items of 256 slots for nodes, with the runs between them, take 769 slots at most.
    if piece.proxies.len() <= 251 {
        return true;
    }
    let slots = measure_all(piece.body.roots.as_slice()).slots as usize + piece.proxies.len();
    16 + 8 * slots <= LONGEST_INLINE
}

/// The bytes of the record that holds the piece with its proxies.
///
/// Errors: `NoMemory`.
pub fn encode_inline(alloc: Global, piece: &Piece) -> Result<Bytes, NoMemory>
    requires { IsValid (Stored.Inline piece.now) }
    ensures bytes { IfOk result (λ bytes. bytes ≡ encoding (Stored.Inline piece.now)) }
    ensures numbers { IfOk result (λ _. HasNumbers (Stored.Inline piece.now)) }
{
    let proxies = piece.proxies.as_slice();
    let mut out = encode_body(
        alloc,
        1,
        &piece.body,
        proxies.len() as u32,
        0,
        proxies.len(),
    )?;
    push_proxies(proxies, &mut out)?;
    Ok(out)
}

/// The bytes of the record that holds the nodes of a piece, with the number of its proxies and the
/// first page of the chain that holds them.
///
/// Errors: `NoMemory`.
pub fn encode_chained(alloc: Global, body: &Body, count: u32, chain: u32) -> Result<Bytes, NoMemory>
    requires { IsValid (Stored.Chained body.now count chain) }
    ensures bytes { IfOk result (λ bytes. bytes ≡ encoding (Stored.Chained body.now count chain)) }
    ensures numbers { IfOk result (λ _. HasNumbers (Stored.Chained body.now count chain)) }
{
    encode_body(alloc, 2, body, count, chain, 0)
}

/// The bytes of proxies as a chain holds them. There are at most 524,288.
///
/// Errors: `NoMemory`.
pub fn encode_proxies(alloc: Global, proxies: &[Proxy]) -> Result<Bytes, NoMemory>
    requires { length proxies.now ≤ 524288 }
    ensures bytes { IfOk result (λ bytes. bytes ≡ proxies_bytes proxies.now) }
    ensures numbers { IfOk result (λ _. HaveNumbers proxies.now) }
{
    let mut out = Bytes::with_capacity(alloc, 8 * proxies.len())?;
    push_proxies(proxies, &mut out)?;
    Ok(out)
}

// The head and the items, with room for so many slots of 8 bytes behind them.
fn encode_body(
    alloc: Global,
    form: u8,
    body: &Body,
    proxies: u32,
    chain: u32,
    beside: usize,
) -> Result<Bytes, NoMemory>
    requires valid { IsValidBody body.now.roots proxies }
    requires room { beside ≤ 524288 }
    ensures bytes { IfOk result (λ bytes. bytes ≡ body_bytes form body.now.roots proxies chain) }
    ensures pages { IfOk result (λ _. HavePages body.now.roots) }
{
    let roots = body.roots.as_slice();
    let extent = measure_all(roots);
    let mut out = Bytes::with_capacity(alloc, 16 + 8 * extent.slots as usize + 8 * beside)?;
    push_head(
        form,
        roots.len() as u16,
        extent.items,
        proxies,
        chain,
        &mut out,
    )?;
    push_trees(roots, &mut out)?;
    Ok(out)
}

// The items of a tree, and how many groups of 8 bytes they take.
#[derive(Clone, Copy)]
struct Extent {
    items: u32,
    slots: u32,
}

fn measure_all(trees: &[PieceTree]) -> Extent
    requires { IsSmall (grown_of trees.now) }
    ensures items { result.items ≡ item_count (grown_of trees.now) }
    ensures slots { result.slots ≡ slots_in (grown_of trees.now) }
{
    let mut extent = Extent { items: 0, slots: 0 };
    for tree in trees {
        let more = measure(tree);
        extent.items += more.items;
        extent.slots += more.slots;
    }
    extent
}

fn measure(tree: &PieceTree) -> Extent
    requires { IsSmallTree tree.now }
    ensures items { result.items ≡ 1 + item_count tree.now.below }
    ensures slots { result.slots ≡ item_slots tree.now.node + slots_in tree.now.below }
{
    let mut extent = Extent {
        items: 1,
        slots: tree.size(),
    };
    for item in tree.children.as_slice() {
        match item {
            Item::Tree(child) => {
                let more = measure(child);
                extent.items += more.items;
                extent.slots += more.slots;
            }
            Item::Run { .. } => {
                extent.items += 1;
                extent.slots += 1;
            }
        }
    }
    extent
}

fn push_head(
    form: u8,
    roots: u16,
    items: u32,
    proxies: u32,
    chain: u32,
    out: &mut Bytes,
) -> Result<(), NoMemory>
    ensures { OnOk result (out.new ≡ out.old ++ head_bytes form roots items proxies chain) }
{
    push_counts(form, roots, items, out)?;
    push_chain(proxies, chain, out)
}

fn push_counts(form: u8, roots: u16, items: u32, out: &mut Bytes) -> Result<(), NoMemory>
    ensures { OnOk result (out.new ≡ out.old ++ items_head_bytes form roots items) }
{
    let [r1, r0] = roots.to_be_bytes();
    let [i3, i2, i1, i0] = items.to_be_bytes();
    out.extend_from_slice(&[form, 0, r1, r0, i3, i2, i1, i0])
}

fn push_chain(proxies: u32, chain: u32, out: &mut Bytes) -> Result<(), NoMemory>
    ensures { OnOk result (out.new ≡ out.old ++ proxies_head_bytes proxies chain) }
{
    let [p3, p2, p1, p0] = proxies.to_be_bytes();
    let [c3, c2, c1, c0] = chain.to_be_bytes();
    out.extend_from_slice(&[p3, p2, p1, p0, c3, c2, c1, c0])
}

fn push_trees(trees: &[PieceTree], out: &mut Bytes) -> Result<(), NoMemory>
    requires { IsSmall (grown_of trees.now) }
    ensures bytes { OnOk result (out.new ≡ out.old ++ items_bytes (grown_of trees.now)) }
    ensures pages { OnOk result (HavePages (grown_of trees.now)) }
{
    for tree in trees {
        push_tree(tree, out)?;
    }
    Ok(())
}

// A node before its child items, to any depth.
fn push_tree(tree: &PieceTree, out: &mut Bytes) -> Result<(), NoMemory>
    requires { IsSmallTree tree.now }
    ensures bytes { OnOk result (out.new ≡ out.old ++ tree_bytes tree.now) }
    ensures page { OnOk result (HasFarPage tree.now.node.far) }
    ensures pages { OnOk result (HavePages tree.now.below) }
{
    let items = tree.children.as_slice();
    push_node(tree, items.len() as u16, out)?;
    for item in items {
        match item {
            Item::Tree(child) => push_tree(child, out)?,
            Item::Run { count } => push_run(*count, out)?,
        }
    }
    Ok(())
}

// The node itself. In the place of a content that stands elsewhere it is said where.
fn push_node(tree: &PieceTree, items: u16, out: &mut Bytes) -> Result<(), NoMemory>
    requires { item_slots tree.now.node ≤ 256 }
    ensures bytes { OnOk result (out.new ≡ out.old ++ node_bytes tree.now.node items) }
    ensures page { OnOk result (HasFarPage tree.now.node.far) }
{
    let kind = tree.node.kind;
    let name = tree.node.name.as_slice();
    match tree.far {
        None => push_item(kind, 0, name, tree.node.content.as_slice(), items, out),
        Some(far) => push_far(kind, name, far.first, far.length, items, out),
    }
}

// The node whose content of so many bytes stands elsewhere, from this page on.
fn push_far(
    kind: Kind,
    name: &[u8],
    first: u32,
    bytes: u32,
    items: u16,
    out: &mut Bytes,
) -> Result<(), NoMemory>
    requires { length name.now + 8 ≤ 2040 }
    ensures bytes { OnOk result (out.new ≡ out.old ++ (node_head_bytes kind 1 (length name.now) 8 items ++ content_bytes name.now (four_bytes first ++ four_bytes bytes))) }
    ensures page { OnOk result (first < 4294967296) }
{
    let [p3, p2, p1, p0] = first.to_be_bytes();
    let [l3, l2, l1, l0] = bytes.to_be_bytes();
    push_item(kind, 1, name, &[p3, p2, p1, p0, l3, l2, l1, l0], items, out)
}

fn push_item(
    kind: Kind,
    far: u8,
    name: &[u8],
    content: &[u8],
    items: u16,
    out: &mut Bytes,
) -> Result<(), NoMemory>
    requires { length name.now + length content.now ≤ 2040 }
    ensures { OnOk result (out.new ≡ out.old ++ (node_head_bytes kind far (length name.now) (length content.now) items ++ content_bytes name.now content.now)) }
{
    push_node_head(
        kind,
        far,
        name.len() as u16,
        content.len() as u16,
        items,
        out,
    )?;
    out.extend_from_slice(name)?;
    out.extend_from_slice(content)?;
    let bytes = name.len() + content.len();
    push_zeros(8 * bytes.div_ceil(8) - bytes, out)
}

fn push_node_head(
    kind: Kind,
    far: u8,
    name: u16,
    content: u16,
    items: u16,
    out: &mut Bytes,
) -> Result<(), NoMemory>
    ensures { OnOk result (out.new ≡ out.old ++ node_head_bytes kind far name content items) }
{
    let [n1, n0] = name.to_be_bytes();
    let [c1, c0] = content.to_be_bytes();
    let [i1, i0] = items.to_be_bytes();
    out.extend_from_slice(&[kind_byte(kind), far, n1, n0, c1, c0, i1, i0])
}

fn push_zeros(count: usize, out: &mut Bytes) -> Result<(), NoMemory>
    requires { count ≤ 8 }
    ensures { OnOk result (out.new ≡ out.old ++ replicate count 0) }
{
    out.extend_from_slice(&[0; 8][..count])
}

fn push_run(count: u32, out: &mut Bytes) -> Result<(), NoMemory>
    ensures { OnOk result (out.new ≡ out.old ++ run_bytes count) }
{
    let [n3, n2, n1, n0] = count.to_be_bytes();
    out.extend_from_slice(&[6, 0, 0, 0, n3, n2, n1, n0])
}

fn push_proxies(proxies: &[Proxy], out: &mut Bytes) -> Result<(), NoMemory>
    ensures bytes { OnOk result (out.new ≡ out.old ++ proxies_bytes proxies.now) }
    ensures numbers { OnOk result (HaveNumbers proxies.now) }
{
    for proxy in proxies {
        push_proxy(proxy.page, proxy.slot, proxy.roots, out)?;
    }
    Ok(())
}

fn push_proxy(page: u32, slot: u16, roots: u16, out: &mut Bytes) -> Result<(), NoMemory>
    ensures bytes { OnOk result (out.new ≡ out.old ++ (four_bytes page ++ two_bytes slot ++ two_bytes roots)) }
    ensures numbers { (page < 4294967296) × (slot < 65536) }
{
    let [p3, p2, p1, p0] = page.to_be_bytes();
    let [s1, s0] = slot.to_be_bytes();
    let [r1, r0] = roots.to_be_bytes();
    out.extend_from_slice(&[p3, p2, p1, p0, s1, s0, r1, r0])
}

fn kind_byte(kind: Kind) -> u8
    ensures { result ≡ kind_byte kind }
{
    match kind {
        Kind::Doc => 1,
        Kind::Element => 2,
        Kind::Attribute => 3,
        Kind::Text => 4,
        Kind::Instruction => 5,
    }
}
