// A piece: the nodes of one part, and the proxies of the parts below it.
ghost use Rattle.std.specs.Prelude.{◌≡◌, ◌==◌, OnOk, OnErr, IfOk};
ghost use Rattle.nx_piece.specs.Gapped.{Gapped, grown_of, gapped_width};
ghost use Rattle.nx_piece.specs.Items.{gapped_of, with_last, with_last_tree};

use nx_lists::{List, NoMemory};
use nx_tree::Node;
use std::alloc::Global;
use std::marker::Model;

/// What stands in a piece for the trees of another record.
#[derive(Clone, Copy, Debug, PartialEq, Eq)]
pub struct Proxy {
    /// The page of the record.
    pub page: u32,
    /// Its slot there.
    pub slot: u16,
    /// How many trees it holds beside each other, 1 to 256.
    pub roots: u16,
}

/// Where a content stands that is kept outside its record.
#[derive(Clone, Copy, Debug, PartialEq, Eq)]
pub struct Far {
    /// The first page of the list of bytes that holds it.
    pub first: u32,
    /// How many bytes it has, 1,025 to 1,048,576.
    pub length: u32,
}

/// A node of a piece and what is below it. Where `far` is there, the content of the node stands elsewhere, and is empty
/// here. Contracts see the node with where its content stands, and the forest with gaps below it.
#[cycle(piece)]
#[derive(Drop)]
pub struct PieceTree {
    pub node: Node,
    pub far: Option<Far>,
    pub children: Items,
}

/// A growing list of what stands below a node of a piece, in order. Contracts see a forest with gaps. Only
/// `push` takes memory.
#[cycle(piece)]
#[derive(Drop)]
pub struct Items {
    items: Vec<Item>,
}

/// What stands at one place below a node.
#[cycle(piece)]
#[derive(Drop)]
pub enum Item {
    /// A tree of this piece.
    Tree(PieceTree),
    /// So many proxies, 1 at least. They are the next ones of the piece, in document order.
    Run { count: u32 },
}

impl Model for PieceTree {
    ghost use Rattle.std.specs.Prelude.{◌+◌, ◌*◌};
    ghost use Rattle.nx_piece.specs.Gapped.{GappedTree, gapped_tree_code, item_count};
    ghost use Rattle.std.proofs.Common.{arith};

    ghost Value = { GappedTree };

    ghost coded = { gapped_tree_code };

    ghost view = { λ a. record { node = record { node = a.node; far = a.far }; below = a.children } };

    ghost size = { λ t. 3 * (1 + item_count t.below) };

    ghost size_decreases = { λ a h. Prim.omega arith };
}

impl Model for Items {
    ghost use Rattle.std.specs.Prelude.{◌+◌, ◌*◌};
    ghost use Rattle.nx_piece.specs.Gapped.{Gapped, gapped_code, item_count};

    ghost Value = { Gapped };

    ghost coded = { gapped_code };

    ghost use Rattle.nx_piece.specs.Items.{gapped_of};

    ghost view = { λ a. gapped_of a.items.items };

    ghost size = { λ f. 3 * item_count f + 2 };

    ghost use Rattle.nx_piece.specs.Falls.{items_fall};
    ghost use Rattle.std.proofs.Common.{arith};

    ghost size_decreases = { λ a h. Prim.omega (arith, items_fall a.items.items) };
}

impl Items {
    /// No items. It takes no memory.
    pub fn new(alloc: Global) -> Items
        ensures { result ≡ Gapped.End }
    {
        Items {
            items: Vec::new(alloc),
        }
    }

    /// The items of the vector, which isn't copied.
    pub fn from_vec(items: Vec<Item>) -> Items
        ensures { result ≡ gapped_of items.items }
    {
        Items { items }
    }

    /// The items as a vector, without a copy.
    pub fn into_vec(self) -> Vec<Item>
        ensures { gapped_of result.items ≡ self }
    {
        let Items { items } = self;
        items
    }

    /// Adds one item at the end.
    ///
    /// Errors: `NoMemory`. The items are as they were then, and the item is dropped.
    pub fn push(&mut self, item: Item) -> Result<(), NoMemory>
        ensures ok { OnOk result (self.new ≡ with_last self.old item) }
        ensures err { OnErr result (self.new ≡ self.old) }
    {
        self.items.push(item)?;
        Ok(())
    }

    /// The number of items, a run counted as one.
    pub fn len(&self) -> usize
        ensures { result ≡ gapped_width self.now }
    {
        self.items.as_slice().len()
    }

    /// Whether there is no item.
    pub fn is_empty(&self) -> bool
        ensures { result ≡ (gapped_width self.now == 0) }
    {
        self.items.as_slice().is_empty()
    }

    /// The items as a slice.
    pub fn as_slice(&self) -> &[Item]
        ensures { gapped_of result.now ≡ self.now }
    {
        self.items.as_slice()
    }
}

/// A growing list of trees beside each other: the roots of a piece. Contracts see a forest with gaps, none of
/// them between its trees. Only `push` takes memory.
#[derive(Drop)]
pub struct PieceTrees {
    trees: Vec<PieceTree>,
}

impl Model for PieceTrees {
    ghost use Rattle.std.specs.Prelude.{List};
    ghost use Rattle.std.specs.Coded.{coded_list};
    ghost use Rattle.nx_piece.specs.Gapped.{Gapped, GappedTree, gapped_code, grown_of};

    ghost Value = { Gapped };

    ghost coded = { gapped_code };

    ghost view = { λ a. grown_of a.trees.items };
}

/// The proxies of a piece, in document order.
pub type Proxies = List<Proxy>;

/// The nodes of a piece, with runs where proxies stand.
#[derive(Drop)]
pub struct Body {
    pub roots: PieceTrees,
}

/// The nodes of one part of a document, and the proxies of the parts below it.
#[derive(Drop)]
pub struct Piece {
    pub body: Body,
    pub proxies: Proxies,
}

/// A piece as a record holds it.
#[derive(Drop)]
pub enum Stored {
    /// With its proxies, where the record then has at most 8,176 bytes.
    Inline(Piece),
    /// With the number of its proxies and the first page of the chain that holds them.
    Chained { body: Body, count: u32, chain: u32 },
}

impl PieceTrees {
    /// No trees. It takes no memory.
    pub fn new(alloc: Global) -> PieceTrees
        ensures { result ≡ Gapped.End }
    {
        PieceTrees {
            trees: Vec::new(alloc),
        }
    }

    /// The trees of the vector, which isn't copied.
    pub fn from_vec(trees: Vec<PieceTree>) -> PieceTrees
        ensures { result ≡ grown_of trees.items }
    {
        PieceTrees { trees }
    }

    /// The trees as a vector, without a copy.
    pub fn into_vec(self) -> Vec<PieceTree>
        ensures { grown_of result.items ≡ self }
    {
        let PieceTrees { trees } = self;
        trees
    }

    /// Adds one tree at the end.
    ///
    /// Errors: `NoMemory`. The trees are as they were then, and the new one is dropped.
    pub fn push(&mut self, item: PieceTree) -> Result<(), NoMemory>
        ensures ok { OnOk result (self.new ≡ with_last_tree self.old item) }
        ensures err { OnErr result (self.new ≡ self.old) }
    {
        self.trees.push(item)?;
        Ok(())
    }

    /// The number of trees.
    pub fn len(&self) -> usize
        ensures { result ≡ gapped_width self.now }
    {
        self.trees.as_slice().len()
    }

    /// Whether there is no tree.
    pub fn is_empty(&self) -> bool
        ensures { result ≡ (gapped_width self.now == 0) }
    {
        self.trees.as_slice().is_empty()
    }

    /// The trees as a slice.
    pub fn as_slice(&self) -> &[PieceTree]
        ensures { grown_of result.now ≡ self.now }
    {
        self.trees.as_slice()
    }
}
