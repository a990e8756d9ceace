// A piece of its own, copied from a record.
ghost use Rattle.std.specs.Prelude.{◌≡◌, IfOk};
ghost use Rattle.nx_piece.specs.Valid.{AreTrees};
ghost use Rattle.nx_piece.specs.Decoded.{IsDecoded};
ghost use Rattle.nx_piece.specs.Viewing.{seen_items, seen_tree};

use crate::{
    Body, BodyView, Item, ItemView, Items, ItemsView, Piece, PieceTree, PieceTrees, PieceView,
    Stored, StoredView, TreeView, view,
};
use nx_tree::NoMemory;
use std::alloc::Global;

/// What a record of these bytes holds: `Some` of a valid piece exactly where they are the bytes of it, and else
/// `None`. Of a piece whose proxies stand in a chain only the number of them is looked at.
///
/// Errors: `NoMemory`.
pub fn decode(alloc: Global, bytes: &[u8]) -> Result<Option<Stored>, NoMemory>
    ensures { IfOk result (λ read. IsDecoded bytes.now read) }
{
    let Some(stored) = view(alloc, bytes)? else {
        return Ok(None);
    };
    match stored {
        StoredView::Inline(piece) => Ok(Some(Stored::Inline(piece.into_piece(alloc)?))),
        StoredView::Chained { body, count, chain } => {
            let body = copy_body(alloc, &body)?;
            Ok(Some(Stored::Chained { body, count, chain }))
        }
    }
}

impl PieceView<'_> {
    /// A piece of its own, with copies of the nodes and the proxies themselves. The roots are trees, as those of each
    /// piece that a record holds.
    ///
    /// Errors: `NoMemory`.
    pub fn into_piece(self, alloc: Global) -> Result<Piece, NoMemory>
        requires { AreTrees self.body.roots }
        ensures { IfOk result (λ piece. piece ≡ self.entry) }
    {
        let PieceView { body, proxies } = self;
        let body = copy_body(alloc, &body)?;
        Ok(Piece { body, proxies })
    }
}

// A copy of the nodes.
fn copy_body(alloc: Global, body: &BodyView<'_>) -> Result<Body, NoMemory>
    requires { AreTrees body.now.roots }
    ensures { IfOk result (λ copy. copy ≡ body.now) }
{
    let mut trees = Vec::with_capacity(alloc, usize::from(body.root_count()))?;
    let mut rest = body.roots();
    while let Some((item, behind)) = rest.split_first() {
        if let ItemView::Tree(tree) = item {
            trees.push_reserved(copy_tree(alloc, tree)?);
        }
        rest = behind;
    }
    Ok(Body {
        roots: PieceTrees::from_vec(trees),
    })
}

// A copy of a tree.
fn copy_tree(alloc: Global, tree: TreeView<'_>) -> Result<PieceTree, NoMemory>
    ensures { IfOk result (λ copy. copy ≡ seen_tree tree.entry) }
{
    let node = tree.node.copy(alloc)?;
    let children = copy_items(alloc, tree.children)?;
    Ok(PieceTree {
        node,
        far: tree.node.far,
        children,
    })
}

// A copy of items, to any depth.
fn copy_items(alloc: Global, items: ItemsView<'_>) -> Result<Items, NoMemory>
    ensures { IfOk result (λ copy. copy ≡ seen_items items.entry) }
{
    let mut copies = Vec::with_capacity(alloc, items.len())?;
    let mut rest = items;
    while let Some((item, behind)) = rest.split_first() {
        match item {
            ItemView::Tree(tree) => {
                let node = tree.node.copy(alloc)?;
                let children = copy_items(alloc, tree.children)?;
                copies.push_reserved(Item::Tree(PieceTree {
                    node,
                    far: tree.node.far,
                    children,
                }));
            }
            ItemView::Run { count } => copies.push_reserved(Item::Run { count }),
        }
        rest = behind;
    }
    Ok(Items::from_vec(copies))
}
