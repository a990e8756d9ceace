// Records whose bytes are known.
ghost use Rattle.std.specs.Prelude.{IfOk};
ghost use Rattle.nx_piece.specs.Valid.{IsPiece, IsValid, IsValidInline};

use crate::reads::{check_bytes, check_is, check_len, check_sizes, encoded, inline, sizes, stored};
use nx_lists::NoMemory;
use nx_piece::{
    Item, ItemView, Items, ItemsView, Located, LocatedView, Piece, PieceTree, PieceView, Proxy,
    Stored, StoredView, TreeView, decode, find, locate, view,
};
use nx_tree::{Kind, Node};
use std::alloc::Global;
use std::process::Abort;
use std::test::Fail;

// An element `a` with an attribute and a text, below the root of the document.
const DOCUMENT: [u8; 72] = [
    1, 0, 0, 1, 0, 0, 0, 4, 0, 0, 0, 0, 0, 0, 0, 0, //
    1, 0, 0, 0, 0, 0, 0, 1, //
    2, 0, 0, 1, 0, 0, 0, 2, b'a', 0, 0, 0, 0, 0, 0, 0, //
    3, 0, 0, 1, 0, 1, 0, 0, b'x', b'1', 0, 0, 0, 0, 0, 0, //
    4, 0, 0, 0, 0, 2, 0, 0, b'h', b'i', 0, 0, 0, 0, 0, 0,
];

// The one root of a piece without proxies.
fn root<'a>(rt: &impl Abort, stored: &'a Stored) -> &'a PieceTree {
    let Stored::Inline(piece) = stored else {
        panic!(rt; "the proxies stand in a chain");
    };
    check_is(rt, piece.proxies.is_empty(), true);
    let [root] = piece.body.roots.as_slice() else {
        panic!(rt; "there is not one root");
    };
    root
}

// The one tree below a node.
fn element<'a>(rt: &impl Abort, items: &'a Items) -> &'a PieceTree {
    let [Item::Tree(element)] = items.as_slice() else {
        panic!(rt; "there is not one element");
    };
    element
}

// The two nodes below it.
fn pair<'a>(rt: &impl Abort, items: &'a Items) -> (&'a Node, &'a Node) {
    let [Item::Tree(attribute), Item::Tree(text)] = items.as_slice() else {
        panic!(rt; "there are not two nodes");
    };
    (&attribute.node, &text.node)
}

fn check_kind(rt: &impl Abort, found: Kind, expected: Kind) {
    assert_eq!(rt; found, expected);
}

fn check_node(rt: &impl Abort, node: &Node, kind: Kind, name: &[u8], content: &[u8]) {
    check_kind(rt, node.kind, kind);
    check_bytes(rt, node.name.as_slice(), name);
    check_bytes(rt, node.content.as_slice(), content);
}

// The nodes of the small document.
fn check_nodes(rt: &impl Abort, root: &PieceTree) {
    check_kind(rt, root.node.kind, Kind::Doc);
    let element = element(rt, &root.children);
    check_bytes(rt, element.node.name.as_slice(), b"a");
    let (attribute, text) = pair(rt, &element.children);
    check_node(rt, attribute, Kind::Attribute, b"x", b"1");
    check_node(rt, text, Kind::Text, b"", b"hi");
}

#[test]
fn small_document(rt: HostRuntime) -> Result<(), Fail> {
    let Some(stored) = stored(rt.alloc(), &DOCUMENT)? else {
        panic!(rt; "no piece was read");
    };
    check_document(&rt, rt.alloc(), &stored)?;
    check_turned(&rt, rt.alloc())?;
    Ok(())
}

fn check_document(rt: &impl Abort, alloc: Global, stored: &Stored) -> Result<(), NoMemory>
    requires { IsValid stored.now }
{
    let again = encoded(alloc, stored)?;
    check_bytes(rt, again.as_slice(), &DOCUMENT);
    check_sizes(rt, sizes(stored), (7, 7));
    check_nodes(rt, root(rt, stored));
    Ok(())
}

// Its last byte may not be another.
fn check_turned(rt: &impl Abort, alloc: Global) -> Result<(), NoMemory> {
    let mut bytes = DOCUMENT;
    bytes[71] = 1;
    let found = is_read(alloc, &bytes)?;
    check_is(rt, found, false);
    Ok(())
}

// Whether a record of these bytes holds a piece.
fn is_read(alloc: Global, bytes: &[u8]) -> Result<bool, NoMemory> {
    let stored = decode(alloc, bytes)?;
    Ok(stored.is_some())
}

// The piece whose proxies stand in the record.
fn seen<'a>(rt: &impl Abort, alloc: Global, bytes: &'a [u8]) -> Result<PieceView<'a>, NoMemory>
    ensures { IfOk result (λ piece. IsValidInline piece.body.roots piece.proxies) }
{
    let Some(StoredView::Inline(piece)) = view(alloc, bytes)? else {
        panic!(rt; "no piece with its proxies was seen");
    };
    Ok(piece)
}

// The first of the items, which is a tree, and how many stand behind it.
fn first<'a>(rt: &impl Abort, items: ItemsView<'a>) -> (TreeView<'a>, usize) {
    let Some((ItemView::Tree(tree), behind)) = items.split_first() else {
        panic!(rt; "there is no tree");
    };
    (tree, behind.len())
}

// The attribute of the small document.
fn check_attribute(
    rt: &impl Abort,
    alloc: Global,
    attribute: TreeView<'_>,
) -> Result<(), NoMemory> {
    check_kind(rt, attribute.node.kind, Kind::Attribute);
    check_len(rt, attribute.children.len(), 0);
    if attribute.node.far.is_some() {
        panic!(rt; "the content stands elsewhere");
    }
    let node = attribute.node.to_node(alloc)?;
    check_bytes(rt, node.content.as_slice(), b"1");
    Ok(())
}

#[test]
fn small_document_seen(rt: HostRuntime) -> Result<(), Fail> {
    let piece = seen(&rt, rt.alloc(), &DOCUMENT)?;
    check_trees(&rt, rt.alloc(), piece.body.roots())?;
    Ok(())
}

fn check_trees(rt: &impl Abort, alloc: Global, roots: ItemsView<'_>) -> Result<(), NoMemory> {
    let (root, behind) = first(rt, roots);
    check_len(rt, behind, 0);
    let (element, _) = first(rt, root.children);
    check_bytes(rt, element.node.name, b"a");
    let (attribute, behind) = first(rt, element.children);
    check_len(rt, behind, 1);
    check_attribute(rt, alloc, attribute)
}

// The root of a document over an element `r` over a run of so many proxies, of one root each where they
// stand in the record. Else they stand in a chain from page 7 on.
fn wide(alloc: Global, form: u8, count: u16) -> Result<Vec<u8>, NoMemory> {
    let mut bytes = Vec::new(alloc);
    push_wide(&mut bytes, form, count)?;
    if form == 1 {
        push_proxies(&mut bytes, count)?;
    }
    Ok(bytes)
}

fn push_wide(bytes: &mut Vec<u8>, form: u8, count: u16) -> Result<(), NoMemory> {
    let [c1, c0] = count.to_be_bytes();
    let chain = if form == 1 { 0 } else { 7 };
    bytes.extend_from_slice(&[form, 0, 0, 1, 0, 0, 0, 3, 0, 0, c1, c0, 0, 0, 0, chain])?;
    bytes.extend_from_slice(&[1, 0, 0, 0, 0, 0, 0, 1])?;
    bytes.extend_from_slice(&[2, 0, 0, 1, 0, 0, 0, 1, b'r', 0, 0, 0, 0, 0, 0, 0])?;
    bytes.extend_from_slice(&[6, 0, 0, 0, 0, 0, c1, c0])?;
    Ok(())
}

fn push_proxies(bytes: &mut Vec<u8>, count: u16) -> Result<(), NoMemory> {
    for proxy in 0..count {
        let [p1, p0] = proxy.to_be_bytes();
        bytes.extend_from_slice(&[0, 1, p1, p0, 0, 3, 0, 1])?;
    }
    Ok(())
}

// Where a path leads: the proxy with its index, the root of its record, and how much of the path is used.
type Place = Option<(Proxy, u32, u16, u32)>;

// The proxy at the end of the inline form.
const LAST: Place = Some((
    Proxy {
        page: 65_541,
        slot: 3,
        roots: 1,
    },
    5,
    0,
    2,
));

fn place_seen(piece: &PieceView<'_>, path: &[u32]) -> Place
    requires { IsPiece piece.now }
{
    match find(piece, 0, path) {
        LocatedView::Away {
            proxy,
            index,
            member,
            used,
        } => Some((proxy, index, member, used)),
        _ => None,
    }
}

fn is_unseen(piece: &PieceView<'_>, path: &[u32]) -> bool
    requires { IsPiece piece.now }
{
    matches!(find(piece, 0, path), LocatedView::Nowhere)
}

fn check_place(rt: &impl Abort, found: Place, expected: Place) {
    assert_eq!(rt; found, expected);
}

// The path leads to the proxy at the end of the inline form, and no further.
#[tactic(auto, using(nx_piece::proofs::Laws::inline_is_piece))]
fn check_paths(rt: &impl Abort, piece: &PieceView<'_>)
    requires { IsValidInline piece.now.body.roots piece.now.proxies }
{
    check_place(rt, place_seen(piece, &[0, 5]), LAST);
    check_is(rt, is_unseen(piece, &[0, 1016]), true);
}

fn place(piece: &Piece, path: &[u32]) -> Place
    requires { IsPiece piece.now }
{
    match locate(piece, 0, path) {
        Located::Away {
            proxy,
            index,
            member,
            used,
        } => Some((proxy, index, member, used)),
        _ => None,
    }
}

fn is_nowhere(piece: &Piece, path: &[u32]) -> bool
    requires { IsPiece piece.now }
{
    matches!(locate(piece, 0, path), Located::Nowhere)
}

// The same path in the copy.
fn check_located(rt: &impl Abort, alloc: Global, bytes: &[u8]) -> Result<(), NoMemory> {
    let Some(piece) = inline(alloc, bytes)? else {
        panic!(rt; "no proxies were read");
    };
    check_place(rt, place(&piece, &[0, 5]), LAST);
    check_is(rt, is_nowhere(&piece, &[0, 1016]), true);
    Ok(())
}

fn check_seen(rt: &impl Abort, alloc: Global, bytes: &[u8]) -> Result<(), NoMemory> {
    let piece = seen(rt, alloc, bytes)?;
    check_paths(rt, &piece);
    Ok(())
}

// The proxies of the record stand in it, or are so many in a chain from that page on.
fn check_form(rt: &impl Abort, stored: &Stored, chain: Option<(u32, u32)>) {
    assert_eq!(rt; chain_of(stored), chain);
}

fn chain_of(stored: &Stored) -> Option<(u32, u32)> {
    match stored {
        Stored::Inline(_) => None,
        Stored::Chained { count, chain, .. } => Some((*count, *chain)),
    }
}

// The record has that length and form, and is written so again.
fn check_again(
    rt: &impl Abort,
    alloc: Global,
    bytes: &[u8],
    length: usize,
    chain: Option<(u32, u32)>,
) -> Result<(), NoMemory> {
    check_len(rt, bytes.len(), length);
    let Some(stored) = stored(alloc, bytes)? else {
        panic!(rt; "no proxies were read");
    };
    check_form(rt, &stored, chain);
    let again = encoded(alloc, &stored)?;
    check_bytes(rt, again.as_slice(), bytes);
    Ok(())
}

fn check_inline(rt: &impl Abort, alloc: Global) -> Result<(), NoMemory> {
    let bytes = wide(alloc, 1, 1016)?;
    check_inline_bytes(rt, alloc, bytes.as_slice())
}

fn check_inline_bytes(rt: &impl Abort, alloc: Global, bytes: &[u8]) -> Result<(), NoMemory> {
    check_seen(rt, alloc, bytes)?;
    check_located(rt, alloc, bytes)?;
    check_again(rt, alloc, bytes, 8176, None)
}

fn check_chained(rt: &impl Abort, alloc: Global) -> Result<(), NoMemory> {
    let bytes = wide(alloc, 2, 1017)?;
    check_again(rt, alloc, bytes.as_slice(), 48, Some((1017, 7)))
}

fn is_wide(alloc: Global, form: u8, count: u16) -> Result<bool, NoMemory> {
    let bytes = wide(alloc, form, count)?;
    is_read(alloc, bytes.as_slice())
}

#[test]
fn inline_and_chained(rt: HostRuntime) -> Result<(), Fail> {
    check_inline(&rt, rt.alloc())?;
    check_chained(&rt, rt.alloc())?;

    // Each form is for its own lengths alone.
    let inline = is_wide(rt.alloc(), 1, 1017)?;
    check_is(&rt, inline, false);
    let chained = is_wide(rt.alloc(), 2, 1016)?;
    check_is(&rt, chained, false);
    Ok(())
}
