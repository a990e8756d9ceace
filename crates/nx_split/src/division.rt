// The separator and the division of a piece.
ghost use Rattle.std.specs.Prelude.{◌≡◌, ◌<◌, List, Option, IfOk};
ghost use Rattle.std.specs.Option.{option_copied};
ghost use Rattle.nx_tree.specs.declared.node.Node.{Node};
ghost use Rattle.nx_matrix.specs.declared.rule.Rule.{Rule};
ghost use Rattle.nx_piece.specs.Gapped.{gapped_weight};
ghost use Rattle.nx_piece.specs.Valid.{IsPiece};
ghost use Rattle.nx_sketch.specs.Separator.{marks, point};
ghost use Rattle.nx_sketch.specs.Split.{IsDivision};
ghost use Rattle.nx_split.specs.Piece.{AreGappedAtMost, placed_of};

use crate::listing::list_nodes;
use nx_division::Division;
use nx_lists::NoMemory;
use nx_matrix::Matrix;
use nx_piece::Piece;
use nx_sketch::Marks;
use nx_tree::Node;
use std::alloc::Global;

/// For each node of the piece in document order, whether it is of the separator. The piece is divided at its
/// weight times `target`, divided by 100 and rounded down. A node is of the separator where this point lies
/// within its subtree, of which only the nodes of the piece count, and the subtree weighs more than
/// `tolerance`. No rule and no node above the piece matters. The piece has to be one that may be stored,
/// but its nodes may take up to 512 slots, and it may have up to 257 roots.
///
/// Errors: `NoMemory`.
pub fn separator(
    alloc: Global,
    piece: &Piece,
    target: u32,
    tolerance: u32,
) -> Result<Marks, NoMemory>
    requires piece { IsPiece piece.now }
    ensures { IfOk result (λ found. (rules : List Rule) (above : Option Node) → found ≡ marks (placed_of rules above piece.now) (point (placed_of rules above piece.now) target) tolerance) }
{
    let matrix = Matrix::new(alloc);
    let spots = list_nodes(alloc, piece, None, &matrix)?;
    nx_sketch::separator(alloc, &spots, target, tolerance)
}

/// The intervals that replace a piece which weighs more than `k`, in document order of their first members.
/// They are those of the separator's plan, where no part of it weighs more than `k`: the separator is that of
/// `separator`. Else they are a plan none of whose parts weighs more than `k`, and of which no two intervals
/// beside each other, with no node and no proxy between them and no standalone member, weigh `k` or less
/// together; where no cluster component weighs more than `k`, no cluster edge is cut.
///
/// The separator's plan is raised where one of its nodes is a root of the piece, that root isn't standalone, and its
/// part in the plan weighs at most `room`: then the root's interval is left out, and the nodes of its part join the part of
/// the node above the piece. `room` is what that part has left below `k`, and 0 where `above` is `None`.
///
/// The entry of a child is the matrix's for its parent and itself. The parent of a root is `above`, which is
/// `None` where the piece holds the document's `Doc` node; a root that is asked to stay with it counts as
/// free. Paths begin at a helper above the roots: the first position is a root's index, and later ones count
/// children as the document does, a proxy as as many as it has roots. Roots alone below the helper
/// are a `Run` with the empty path.
///
/// The piece has to be one that may be stored, but its nodes may take up to 512 slots, and it may have up to 257
/// roots; it has to weigh more than `k`, and none of its nodes may weigh more than `k`.
///
/// Errors: `NoMemory`.
pub fn split(
    alloc: Global,
    piece: &Piece,
    above: Option<&Node>,
    room: u32,
    matrix: &Matrix,
    k: u32,
    target: u32,
    tolerance: u32,
) -> Result<Division, NoMemory>
    requires piece { IsPiece piece.now }
    requires heavy { k < gapped_weight piece.now.body.roots }
    requires nodes { AreGappedAtMost k piece.now.body.roots }
    ensures { IfOk result (λ division. IsDivision k (placed_of matrix.now (option_copied above.entry) piece.now) room target tolerance division.parts division.raised) }
{
    let spots = list_nodes(alloc, piece, above, matrix)?;
    nx_division::split(alloc, &spots, room, k, target, tolerance)
}
