// A node of a piece edited at the end of a path: another content, or something planted among its children.
ghost use Rattle.std.specs.Prelude.{◌≡◌, ◌+◌, ◌≤◌, ℕ, Some, length, drop, OnOk, IfErr};
ghost use Rattle.std.specs.List.{slice_get};
ghost use Rattle.nx_piece.specs.Gapped.{GappedTree, proxies_in, grown_of};
ghost use Rattle.nx_piece.specs.Locate.{Own, Inside, children_of, reached};
ghost use Rattle.nx_piece.specs.Valid.{AreApart, HaveRoots, IsPiece};
ghost use Rattle.nx_piece_edits.specs.Setting.{IsWithContent, LeadsInside, tree_with, with_tree};
ghost use Rattle.nx_piece_edits.specs.Editing.{node_edited, HasPlace, LeadsToPlace, MayGrow};

use crate::planting::{put_leaf, put_proxy};
use nx_lists::NoMemory;
use nx_piece::{
    Body, Far, FoundChild, Item, Items, Piece, PieceTree, PieceTrees, Proxy, child_at, root_at,
};
use nx_tree::{Bytes, Node};
use std::alloc::Global;
use std::mem;

// What is done with a node.
#[derive(Drop)]
pub(crate) enum NodeEdit {
    // The content stands elsewhere where that is said.
    Content(Bytes, Option<Far>),
    // A leaf comes before the child at the position.
    Leaf(u32, Node, Option<Far>),
    // So does a proxy.
    OneProxy(u32),
}

/// The piece with this content of the node that the path leads to, which begins at the root `member`: to a tree of the
/// piece, as `locate` tells. Where `far` is there, the content stands elsewhere, and is empty here. A valid piece stays one
/// where its nodes take 256 slots at most then, and may be split where that node does; a far content has to be as one may
/// be. It takes no memory.
pub fn set_content(
    alloc: Global,
    piece: Piece,
    member: u16,
    path: &[u32],
    content: Bytes,
    far: Option<Far>,
) -> Piece
    requires piece { IsPiece piece }
    requires leads { LeadsInside piece member path.now }
    ensures { IsWithContent piece member path.now content far result }
{
    let Piece { body, proxies } = piece;
    let mut roots = body.roots.into_vec();
    let edit = NodeEdit::Content(content, far);
    match edit_root(alloc, &mut roots, proxies.as_slice(), member, path, edit) {
        Ok(()) => Piece {
            body: Body {
                roots: PieceTrees::from_vec(roots),
            },
            proxies,
        },
        Err(_) => unreachable!(),
    }
}

// Edits the node that the path leads to from the root `member`. After an error the roots are no more to be used.
pub(crate) fn edit_root(
    alloc: Global,
    roots: &mut Vec<PieceTree>,
    proxies: &[Proxy],
    member: u16,
    path: &[u32],
    edit: NodeEdit,
) -> Result<(), NoMemory>
    requires fits { proxies_in (grown_of roots.old.items) ≤ length proxies.now }
    requires few { length proxies.now ≤ 524288 }
    requires apart { AreApart (grown_of roots.old.items) }
    requires ranged { HaveRoots proxies.now }
    requires leads { LeadsToPlace proxies.now path.now (slice_get (children_of proxies.now 0 (grown_of roots.old.items)) member) edit }
    ensures ok { OnOk result ((target : GappedTree) (before used : ℕ) → reached proxies.now used path.now (slice_get (children_of proxies.now 0 (grown_of roots.old.items)) member) ≡ Inside target before →
        grown_of roots.new.items ≡ with_tree member path.now (node_edited edit target (drop before proxies.now)) (grown_of roots.old.items) proxies.now) }
    ensures err { IfErr result (λ _. MayGrow edit) }
{
    let Some((_, first)) = root_at(roots.as_slice(), member) else {
        unreachable!();
    };
    edit_below(
        alloc,
        &mut roots[usize::from(member)],
        proxies,
        first,
        path,
        edit,
    )
}

// Edits the node that the path leads to below this one, before whose items stand `first` of the proxies; this one where the
// path is empty.
fn edit_below(
    alloc: Global,
    tree: &mut PieceTree,
    proxies: &[Proxy],
    first: u32,
    path: &[u32],
    edit: NodeEdit,
) -> Result<(), NoMemory>
    requires fits { first + proxies_in tree.old.below ≤ length proxies.now }
    requires few { length proxies.now ≤ 524288 }
    requires apart { AreApart tree.old.below }
    requires ranged { HaveRoots proxies.now }
    requires leads { LeadsToPlace proxies.now path.now (Some (Own tree.old first)) edit }
    ensures ok { OnOk result ((target : GappedTree) (before used : ℕ) → reached proxies.now used path.now (Some (Own tree.old first)) ≡ Inside target before →
        tree.new ≡ tree_with path.now (node_edited edit target (drop before proxies.now)) tree.old (drop first proxies.now)) }
    ensures err { IfErr result (λ _. MayGrow edit) }
{
    let Some((position, rest)) = path.split_first() else {
        return edit_node(alloc, tree, proxies, first, edit);
    };
    let Some(FoundChild::Tree(_, before, index)) = child_at(
        tree.children.as_slice(),
        proxies,
        first,
        *position,
    ) else {
        unreachable!();
    };
    let mut items = mem::replace(&mut tree.children, Items::new(alloc)).into_vec();
    match &mut items[index] {
        Item::Tree(child) => {
            let done = edit_below(alloc, child, proxies, before, rest, edit);
            tree.children = Items::from_vec(items);
            done
        }
        Item::Run { count: _ } => unreachable!(),
    }
}

// Edits the node, before whose items stand `first` of the proxies.
fn edit_node(
    alloc: Global,
    tree: &mut PieceTree,
    proxies: &[Proxy],
    first: u32,
    edit: NodeEdit,
) -> Result<(), NoMemory>
    requires fits { first + proxies_in tree.old.below ≤ length proxies.now }
    requires few { length proxies.now ≤ 524288 }
    requires apart { AreApart tree.old.below }
    requires ranged { HaveRoots proxies.now }
    requires place { HasPlace edit (children_of proxies.now first tree.old.below) }
    ensures ok { OnOk result (tree.new ≡ node_edited edit tree.old (drop first proxies.now)) }
    ensures err { IfErr result (λ _. MayGrow edit) }
{
    match edit {
        NodeEdit::Content(content, far) => {
            tree.node.content = content;
            tree.far = far;
            Ok(())
        }
        NodeEdit::Leaf(position, node, far) => {
            put_leaf(alloc, tree, proxies, first, position, node, far)
        }
        NodeEdit::OneProxy(position) => put_proxy(alloc, tree, proxies, first, position),
    }
}
