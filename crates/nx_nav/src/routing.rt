// The records that a path passes, kept for a change at its end.
ghost use Rattle.std.specs.Prelude.{◌≡◌, ◌++◌, ◌∷◌, [], ℕ, true, Some, IfOk, OnOk};
ghost use Rattle.nx_piece.specs.declared.piece.Proxy.{Proxy};
ghost use Rattle.nx_piece.specs.declared.finding.LocatedView.TheVariants.{Away};
ghost use Rattle.nx_piece.specs.Find.{IsLocatedView};
ghost use Rattle.nx_piece.specs.Flat.{seen_node};
ghost use Rattle.nx_piece.specs.Gapped.{GappedTree};
ghost use Rattle.nx_piece.specs.Locate.{Inside, reached_in};
ghost use Rattle.nx_piece.specs.Valid.{IsValidPiece};
ghost use Rattle.nx_nav.specs.declared.routing.PassedRecord.{PassedRecord};
ghost use Rattle.nx_nav.specs.declared.routing.Route.{Route};
ghost use Rattle.nx_nav.specs.Route.{IsPassedRecord};

use nx_piece::{LocatedView, NodeView, Piece, PieceView, Proxy, find};
use nx_tree::{Bytes, NoMemory, Node};
use std::alloc::Global;

/// A record that a path passes: it leads out of its piece into the record of a proxy.
#[derive(Drop)]
pub struct PassedRecord {
    /// How many roots the piece has.
    pub roots: u16,
    /// What the piece weighs, in slots of 8 bytes.
    pub weight: u32,
    /// Which of the piece's proxies it is.
    pub index: u32,
    /// The proxy.
    pub proxy: Proxy,
    /// The root of the record below that the path leads to.
    pub member: u16,
    /// How many positions of the path lead there.
    pub used: u32,
    /// The node of the piece that the proxy stands below. Where its content stands elsewhere, it is empty here.
    pub above: Node,
}

/// The way to a node: the records that the path passes, from the root's on, and the piece that has the node.
#[derive(Drop)]
pub struct Route {
    pub passed: Vec<PassedRecord>,
    pub last: Piece,
}

// Keeps of the record of a piece what the path leaves it by, behind those before, where the way is kept.
pub fn pass_record(
    alloc: Global,
    keeps: bool,
    passed: &mut Vec<PassedRecord>,
    piece: &PieceView<'_>,
    from: u16,
    path: &[u32],
    located: LocatedView<'_>,
) -> Result<(), NoMemory>
    requires valid { IsValidPiece piece.now }
    requires leads { IsLocatedView piece.now (reached_in piece.now from path.now) located }
    ensures { OnOk result (keeps ≡ true → (proxy : Proxy) (index member used : ℕ) → located.entry ≡ Away proxy index member used
        → (one : PassedRecord) × (passed.new.items ≡ passed.old.items ++ one ∷ []) × (one.proxy ≡ proxy) × (one.member ≡ member) × (one.used ≡ used) × IsPassedRecord piece.now from path.now one) }
{
    let LocatedView::Away {
        proxy,
        index,
        member,
        used,
    } = located
    else {
        return Ok(());
    };
    if keeps {
        let above = node_at(alloc, piece, from, &path[..used as usize - 1])?;
        passed.push(PassedRecord {
            roots: piece.body.root_count(),
            weight: piece.body.weight(),
            index,
            proxy,
            member,
            used,
            above,
        })?;
    }
    Ok(())
}

// The route that ends in this piece, where it is kept.
pub fn end_route(
    alloc: Global,
    keeps: bool,
    passed: Vec<PassedRecord>,
    piece: PieceView<'_>,
) -> Result<Option<Route>, NoMemory>
    requires { IsValidPiece piece }
    ensures { IfOk result (λ kept. keeps ≡ true → (route : Route) × (kept ≡ Some route) × (route.passed.items ≡ passed.items) × (route.last ≡ piece.entry)) }
{
    if !keeps {
        return Ok(None);
    }
    let last = piece.into_piece(alloc)?;
    Ok(Some(Route { passed, last }))
}

// A copy of the node that the path leads to, as its record has it.
fn node_at(
    alloc: Global,
    piece: &PieceView<'_>,
    member: u16,
    path: &[u32],
) -> Result<Node, NoMemory>
    requires valid { IsValidPiece piece.now }
    requires leads { (tree : GappedTree) × (first : ℕ) × (reached_in piece.now member path.now ≡ Inside tree first) }
    ensures { IfOk result (λ node. (tree : GappedTree) × (first : ℕ) × (reached_in piece.now member path.now ≡ Inside tree first) × (node ≡ tree.node.node)) }
{
    match find(piece, member, path) {
        LocatedView::Here { tree, .. } => copy_node(alloc, tree.node),
        LocatedView::Away { .. } | LocatedView::Nowhere => unreachable!(),
    }
}

// A copy of the node of a record, without a content that stands elsewhere.
pub fn copy_node(alloc: Global, node: NodeView<'_>) -> Result<Node, NoMemory>
    ensures { IfOk result (λ copy. copy ≡ (seen_node node.entry).node) }
{
    Ok(Node {
        kind: node.kind,
        name: Bytes::from_slice(alloc, node.name)?,
        content: Bytes::from_slice(alloc, node.content)?,
    })
}
