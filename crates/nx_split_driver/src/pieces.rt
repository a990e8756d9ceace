// Pieces that are about to be split.
ghost use Rattle.std.specs.Prelude.{◌≡◌, ◌<◌, IfOk, IfSome};
ghost use Rattle.nx_piece.specs.Gapped.{End, Grow, gapped_weight};
ghost use Rattle.nx_piece.specs.Valid.{IsPiece, IsValid};
ghost use Rattle.nx_split.specs.Piece.{AreGappedAtMost};
ghost use Rattle.nx_split_driver.specs.Half.{IsHalf};

use nx_lists::NoMemory;
use nx_piece::{Body, Piece, PieceTree, PieceTrees, Proxies, Stored, decode, weight};
use std::alloc::Global;

// The most that a part may weigh.
pub(crate) const K: u32 = 256;

// The piece of the record's one root and the same root again, where the record is that of a piece with one root
// and no proxies, and the two weigh more than `K`.
pub(crate) fn read_pair(alloc: Global, bytes: &[u8]) -> Result<Option<Piece>, NoMemory>
    ensures piece { IfOk result (λ found. IfSome found (λ piece. IsPiece piece)) }
    ensures heavy { IfOk result (λ found. IfSome found (λ piece. 256 < gapped_weight piece.body.roots)) }
    ensures nodes { IfOk result (λ found. IfSome found (λ piece. AreGappedAtMost 256 piece.body.roots)) }
{
    let Some(first) = read_root(alloc, bytes)? else {
        return Ok(None);
    };
    let Some(second) = read_root(alloc, bytes)? else {
        return Ok(None);
    };
    let piece = pair(alloc, first, second)?;
    if weight(&piece.body) <= K {
        return Ok(None);
    }
    Ok(Some(piece))
}

// The piece of two roots.
fn pair(alloc: Global, first: PieceTree, second: PieceTree) -> Result<Piece, NoMemory>
    requires first { IsHalf first }
    requires second { IsHalf second }
    ensures piece { IfOk result (λ piece. IsPiece piece) }
    ensures nodes { IfOk result (λ piece. AreGappedAtMost 256 piece.body.roots) }
{
    let mut roots = PieceTrees::new(alloc);
    roots.push(first)?;
    roots.push(second)?;
    Ok(Piece {
        body: Body { roots },
        proxies: Proxies::new(alloc),
    })
}

// The root of the record's piece, where it has one root and no proxies.
fn read_root(alloc: Global, bytes: &[u8]) -> Result<Option<PieceTree>, NoMemory>
    ensures { IfOk result (λ found. IfSome found (λ tree. IsHalf tree)) }
{
    match decode(alloc, bytes)? {
        Some(stored) => Ok(root_of(stored)),
        None => Ok(None),
    }
}

// The root of a piece, where it has one root and no proxies.
fn root_of(stored: Stored) -> Option<PieceTree>
    requires { IsValid stored }
    ensures { IfSome result (λ tree. IsHalf tree) }
{
    match stored {
        Stored::Inline(Piece { body, proxies }) => {
            let Body { roots } = body;
            if proxies.is_empty() {
                one_tree(roots)
            } else {
                None
            }
        }
        Stored::Chained { .. } => None,
    }
}

// The tree, where it is the only one.
fn one_tree(trees: PieceTrees) -> Option<PieceTree>
    ensures { IfSome result (λ tree. trees ≡ Grow tree.node tree.below End) }
{
    let mut trees = trees.into_vec();
    if trees.len() == 1 { trees.pop() } else { None }
}
