//! Pieces of documents: the nodes of one record, with runs in the place of the parts that other
//! records keep, and the bytes of the record. It stands on the trees of `nx_tree` and their weights.
//!
//! Contracts see a `PieceTree` as a node with what is below it, and `Items` and `PieceTrees` as a forest
//! with gaps (`specs/Gapped.antt`). Of the views of a record they see a `Body` and a `Piece`, and what stands there by
//! `seen_items` and `seen_tree` (`specs/Viewing.antt`). The bytes of a piece are said in `specs/Encoding.antt`, which
//! pieces may be stored in `specs/Valid.antt`, and where a path leads in `specs/Locate.antt`.
#![tactic(auto)]

mod checking;
mod copying;
mod finding;
mod locating;
mod piece;
mod reading;
mod viewing;
mod weighing;
mod writing;

pub use checking::{Checked, check, check_proxies};
pub use copying::decode;
pub use finding::{FoundView, LocatedView, count_children, find, find_child, member_at};
pub use locating::{FoundChild, Located, child_at, children, locate, proxies_below, root_at};
pub use piece::{Body, Far, Item, Items, Piece, PieceTree, PieceTrees, Proxies, Proxy, Stored};
pub use reading::{Head, decode_proxies, read_head, read_node, read_proxy, read_run, view};
pub use viewing::{BodyView, ItemView, ItemsView, NodeView, PieceView, StoredView, TreeView};
pub use weighing::{count_nodes, size, weight};
pub use writing::{encode, encode_chained, encode_inline, encode_proxies, fits_inline};
