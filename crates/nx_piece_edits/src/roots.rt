// A root planted into a piece, and roots divided.
ghost use Rattle.std.specs.Prelude.{◌≡◌, ◌<◌, ◌≤◌, ℕ, length, take, drop, IfOk};
ghost use Rattle.nx_piece.specs.Gapped.{gapped_width};
ghost use Rattle.nx_piece.specs.Valid.{IsPiece};
ghost use Rattle.nx_piece_edits.specs.Planting.{IsWithRoot};
ghost use Rattle.nx_piece_edits.specs.Dividing.{AreDivided};

use nx_lists::NoMemory;
use nx_piece::{Body, Far, Items, Piece, PieceTree, PieceTrees, Proxies, root_at};
use nx_tree::Node;
use std::alloc::Global;

/// The piece with the node as a root at the index `member`, which is a leaf. Where `far` is there, the node's content
/// stands elsewhere, and is empty here. A valid piece stays one where its nodes take 256 slots at most then and it has 256
/// roots at most, and may be split where the node takes no more than that; a far content has to be as one may be.
///
/// Errors: `NoMemory`. The piece and the node are dropped then.
pub fn plant_root(
    alloc: Global,
    piece: Piece,
    member: u16,
    node: Node,
    far: Option<Far>,
) -> Result<Piece, NoMemory>
    requires { member ≤ gapped_width piece.body.roots }
    ensures { IfOk result (λ grown. IsWithRoot piece member (record { node = node; far = far }) grown) }
{
    let Piece { body, proxies } = piece;
    let mut roots = body.roots.into_vec();
    let children = Items::new(alloc);
    roots.insert(
        usize::from(member),
        PieceTree {
            node,
            far,
            children,
        },
    )?;
    Ok(Piece {
        body: Body {
            roots: PieceTrees::from_vec(roots),
        },
        proxies,
    })
}

/// The first `member` roots of the piece, and those behind them, each as a piece with the proxies of its own. They may be
/// stored where the piece may. The piece may have 512 slots and 257 roots.
///
/// Errors: `NoMemory`. The piece is dropped then.
pub fn divide_roots(alloc: Global, piece: Piece, member: u16) -> Result<(Piece, Piece), NoMemory>
    requires piece { IsPiece piece }
    requires some { 1 ≤ member }
    requires more { member < gapped_width piece.body.roots }
    ensures { IfOk result (λ parts. AreDivided piece member parts) }
{
    let Piece { body, proxies } = piece;
    let mut roots = body.roots.into_vec();
    let Some((_, first)) = root_at(roots.as_slice(), member) else {
        unreachable!();
    };
    let behind = roots.split_off(usize::from(member))?;
    let mut proxies = proxies.into_vec();
    let others = proxies.split_off(first as usize)?;
    Ok((
        Piece {
            body: Body {
                roots: PieceTrees::from_vec(roots),
            },
            proxies: Proxies::from_vec(proxies),
        },
        Piece {
            body: Body {
                roots: PieceTrees::from_vec(behind),
            },
            proxies: Proxies::from_vec(others),
        },
    ))
}
