// The nodes of a record as they lie in its bytes, as one flat list.
ghost use Rattle.std.specs.Prelude.{◌≡◌, ◌≤◌, IfOk, MatchOption};
ghost use Rattle.std.specs.Prelude.{None};
ghost use Rattle.nx_piece.specs.PieceNode.{near, content_length, node_weight, IsShortNode};
ghost use Rattle.nx_piece.specs.Gapped.{End, gapped_width, gapped_nodes, gapped_size, gapped_weight, proxies_in};
ghost use Rattle.nx_piece.specs.Valid.{AreFar};
ghost use Rattle.nx_piece.specs.Flat.{seen_node, unflattened};
ghost use Rattle.nx_piece.specs.Viewing.{seen_items, begun_with};

use crate::{Far, Proxies};
use nx_tree::{Bytes, Kind, NoMemory, Node};
use nx_weights::weight_of;
use std::alloc::Global;
use std::marker::Model;

/// A node whose name and content lie in the bytes of a record. Where `far` is there, the content stands elsewhere, and is
/// empty here.
#[derive(Clone, Copy)]
pub struct NodeView<'a> {
    pub kind: Kind,
    pub name: &'a [u8],
    pub content: &'a [u8],
    pub far: Option<Far>,
}

impl NodeView<'_> {
    /// A copy of the node, whose content stands in the record.
    ///
    /// Errors: `NoMemory`.
    pub fn to_node(self, alloc: Global) -> Result<Node, NoMemory>
        requires { self.far ≡ None }
        ensures { IfOk result (λ node. near node ≡ seen_node self.entry) }
    {
        self.copy(alloc)
    }

    // A copy of the node, without a content that stands elsewhere.
    pub(crate) fn copy(self, alloc: Global) -> Result<Node, NoMemory>
        ensures { IfOk result (λ node. node ≡ (seen_node self.entry).node) }
    {
        Ok(Node {
            kind: self.kind,
            name: copied(alloc, self.name)?,
            content: copied(alloc, self.content)?,
        })
    }

    /// How many bytes the content has, wherever it stands. There are at most 4,294,967,295. It takes no memory.
    pub fn content_len(self) -> u32
        requires { content_length (seen_node self) ≤ 4294967295 }
        ensures { result ≡ content_length (seen_node self.entry) }
    {
        match self.far {
            None => self.content.len() as u32,
            Some(far) => far.length,
        }
    }

    /// What the node weighs, in slots of 8 bytes. It has to be within the limits of a document. It takes no memory.
    pub fn weight(self) -> u32
        requires { IsShortNode (seen_node self) }
        ensures { result ≡ node_weight (seen_node self.entry) }
    {
        weight_of(self.name.len() as u32, self.content_len())
    }
}

// A copy of the bytes. Of none it takes no memory.
fn copied(alloc: Global, bytes: &[u8]) -> Result<Bytes, NoMemory>
    ensures { IfOk result (λ copy. copy ≡ bytes.now) }
{
    if bytes.is_empty() {
        return Ok(Bytes::new(alloc));
    }
    Bytes::from_slice(alloc, bytes)
}

// One item of the flat list: a node, and how many items follow it that stand below it, at every depth; or a run of
// so many proxies.
#[derive(Clone, Copy)]
pub(crate) enum Flat<'a> {
    Tree { node: NodeView<'a>, below: u32 },
    Run { count: u32 },
}

/// What stands below a node of a record, or its roots, in order. Contracts see a forest with gaps (`seen_items`).
#[derive(Clone, Copy)]
pub struct ItemsView<'a> {
    items: &'a [Flat<'a>],
}

/// A node of a record with what stands below it.
#[derive(Clone, Copy)]
pub struct TreeView<'a> {
    pub node: NodeView<'a>,
    pub children: ItemsView<'a>,
}

/// What stands at one place below a node.
#[derive(Clone, Copy)]
pub enum ItemView<'a> {
    /// A tree of the record.
    Tree(TreeView<'a>),
    /// So many proxies, 1 at least. They are the next ones of the piece, in document order.
    Run { count: u32 },
}

impl<'a> ItemsView<'a> {
    /// The first item and what stands behind it, or `None` where there is none. It takes no memory.
    pub fn split_first(self) -> Option<(ItemView<'a>, ItemsView<'a>)>
        ensures { MatchOption result (seen_items self.entry ≡ End) (λ found. seen_items self.entry ≡ begun_with found.0 (seen_items found.1)) }
    {
        let (first, rest) = self.items.split_first()?;
        match *first {
            Flat::Tree { node, below } => {
                let (children, beside) = rest.split_at((below as usize).min(rest.len()));
                let tree = TreeView {
                    node,
                    children: ItemsView { items: children },
                };
                Some((ItemView::Tree(tree), ItemsView { items: beside }))
            }
            Flat::Run { count } => Some((ItemView::Run { count }, ItemsView { items: rest })),
        }
    }

    /// The number of items, a run counted as one. It takes no memory.
    pub fn len(self) -> usize
        ensures { result ≡ gapped_width (seen_items self.entry) }
    {
        // There are no more than at all depths together.
        let most = self.items.len();
        let mut rest = self;
        for len in 0..most {
            let Some((_, behind)) = rest.split_first() else {
                return len;
            };
            rest = behind;
        }
        most
    }

    /// How many proxies the runs stand for, at every depth. There are at most 4,294,967,295. It takes no memory.
    pub fn proxies(self) -> u32
        requires { proxies_in (seen_items self) ≤ 4294967295 }
        ensures { result ≡ proxies_in (seen_items self.entry) }
    {
        let mut proxies = 0;
        for item in self.items {
            if let Flat::Run { count } = item {
                proxies += *count;
            }
        }
        proxies
    }
}

/// The nodes of a record. Contracts see a `Body`.
#[derive(Drop)]
pub struct BodyView<'a> {
    items: Vec<Flat<'a>>,
    roots: u16,
    size: u32,
}

impl<'a> Model for BodyView<'a> {
    ghost use Rattle.nx_piece.specs.declared.piece.Body.{Body};
    ghost use Rattle.nx_piece.specs.Code.{body_code};

    ghost Value = { Body };

    ghost coded = { body_code };

    ghost use Rattle.std.specs.Prelude.{◌≡◌, ◌≤◌};
    ghost use Rattle.nx_piece.specs.Gapped.{gapped_width, gapped_size};
    ghost use Rattle.nx_piece.specs.Valid.{AreFar};
    ghost use Rattle.nx_piece.specs.Flat.{unflattened};

    ghost view = { λ a. record { roots = unflattened a.items.items } };

    ghost invariant = { λ a. (a.roots ≡ gapped_width (unflattened a.items.items)) × (a.size ≡ gapped_size (unflattened a.items.items)) × (a.size ≤ 256) × AreFar (unflattened a.items.items) };
}

impl<'a> BodyView<'a> {
    // The body of these items, which has so many roots, and whose nodes' items take so many slots.
    pub(crate) fn new(items: Vec<Flat<'a>>, roots: u16, size: u32) -> BodyView<'a>
        requires roots { roots ≡ gapped_width (unflattened items.items) }
        requires size { size ≡ gapped_size (unflattened items.items) }
        requires small { size ≤ 256 }
        requires far { AreFar (unflattened items.items) }
        ensures { result.roots ≡ unflattened items.entry.items }
    {
        BodyView { items, roots, size }
    }

    /// The roots, which are trees alone.
    pub fn roots(&self) -> ItemsView<'_>
        ensures { seen_items result ≡ self.now.roots }
    {
        ItemsView {
            items: self.items.as_slice(),
        }
    }

    /// How many roots there are.
    pub fn root_count(&self) -> u16
        ensures { result ≡ gapped_width self.now.roots }
    {
        self.roots
    }

    /// The sum of the weights of the nodes, in slots of 8 bytes; proxies weigh nothing. It looks at each node, and takes no
    /// memory.
    pub fn weight(&self) -> u32
        ensures { result ≡ gapped_weight self.now.roots }
    {
        let mut weight = 0;
        for item in self.items.as_slice() {
            if let Flat::Tree { node, .. } = item {
                weight += node.weight();
            }
        }
        weight
    }

    /// How many nodes there are. It looks at each, and takes no memory.
    pub fn nodes(&self) -> u32
        ensures { result ≡ gapped_nodes self.now.roots }
    {
        let mut nodes = 0;
        for item in self.items.as_slice() {
            if let Flat::Tree { .. } = item {
                nodes += 1;
            }
        }
        nodes
    }

    /// How many slots of 8 bytes the items of the nodes take in the record; runs and proxies aren't counted.
    pub fn size(&self) -> u32
        ensures { result ≡ gapped_size self.now.roots }
    {
        self.size
    }
}

/// The nodes of a record and its proxies. Contracts see a `Piece`.
#[derive(Drop)]
pub struct PieceView<'a> {
    pub body: BodyView<'a>,
    pub proxies: Proxies,
}

impl<'a> Model for PieceView<'a> {
    ghost use Rattle.nx_piece.specs.declared.piece.Piece.{Piece};
    ghost use Rattle.nx_piece.specs.Code.{piece_code};

    ghost Value = { Piece };

    ghost coded = { piece_code };

    ghost view = { λ a. record { body = a.body; proxies = a.proxies } };
}

/// A piece as a record holds it, seen in its bytes.
#[derive(Drop)]
pub enum StoredView<'a> {
    /// With its proxies.
    Inline(PieceView<'a>),
    /// With the number of its proxies and the first page of the chain that holds them.
    Chained {
        body: BodyView<'a>,
        count: u32,
        chain: u32,
    },
}
