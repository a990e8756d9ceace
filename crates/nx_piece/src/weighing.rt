// What the nodes of a piece weigh, and how many slots their items take in its record.
ghost use Rattle.std.specs.Prelude.{◌≡◌, ◌+◌, ◌≤◌};
ghost use Rattle.nx_piece.specs.PieceNode.{content_length, item_slots, node_weight, IsShortNode};
ghost use Rattle.nx_piece.specs.Gapped.{gapped_nodes, gapped_size, gapped_weight};
ghost use Rattle.nx_piece.specs.Weight.{HaveShortNodes, HasShortNodes};

use crate::{Body, Item, PieceTree};
use nx_weights::weight_of;

impl PieceTree {
    /// What the node itself weighs, in slots of 8 bytes. It has to be within the limits of a document. It takes no memory.
    pub fn weight(&self) -> u32
        requires { IsShortNode self.now.node }
        ensures { result ≡ node_weight self.now.node }
    {
        weight_of(self.node.name.len() as u32, self.content_len())
    }

    /// How many bytes the content of the node has, wherever it stands. There are at most 4,294,967,295. It takes no memory.
    pub fn content_len(&self) -> u32
        requires { content_length self.now.node ≤ 4294967295 }
        ensures { result ≡ content_length self.now.node }
    {
        match self.far {
            None => self.node.content.len() as u32,
            Some(far) => far.length,
        }
    }

    /// How many slots of 8 bytes the item of the node itself takes in a record. There are at most 4,294,967,295. It takes
    /// no memory.
    pub fn size(&self) -> u32
        requires { item_slots self.now.node ≤ 4294967295 }
        ensures { result ≡ item_slots self.now.node }
    {
        let content = match self.far {
            None => self.node.content.len(),
            Some(_) => 8,
        };
        1 + (self.node.name.len() + content).div_ceil(8) as u32
    }
}

/// The sum of the weights of the nodes, in slots of 8 bytes; proxies weigh nothing. Each node has to be within the
/// limits of a document, and the sum at most 4,294,967,295. It takes no memory.
pub fn weight(body: &Body) -> u32
    requires short { HaveShortNodes body.now.roots }
    requires few { gapped_weight body.now.roots ≤ 4294967295 }
    ensures { result ≡ gapped_weight body.now.roots }
{
    let mut sum = 0;
    for root in body.roots.as_slice() {
        sum += tree_weight(root);
    }
    sum
}

// The sum for one tree.
fn tree_weight(tree: &PieceTree) -> u32
    requires short { HasShortNodes tree.now }
    requires few { node_weight tree.now.node + gapped_weight tree.now.below ≤ 4294967295 }
    ensures { result ≡ node_weight tree.now.node + gapped_weight tree.now.below }
{
    let mut sum = tree.weight();
    for item in tree.children.as_slice() {
        if let Item::Tree(child) = item {
            sum += tree_weight(child);
        }
    }
    sum
}

/// How many slots of 8 bytes the items of the nodes take in the record; runs and proxies aren't counted. There are at most
/// 4,294,967,295. It takes no memory.
pub fn size(body: &Body) -> u32
    requires { gapped_size body.now.roots ≤ 4294967295 }
    ensures { result ≡ gapped_size body.now.roots }
{
    let mut sum = 0;
    for root in body.roots.as_slice() {
        sum += tree_size(root);
    }
    sum
}

// The sum for one tree.
fn tree_size(tree: &PieceTree) -> u32
    requires { item_slots tree.now.node + gapped_size tree.now.below ≤ 4294967295 }
    ensures { result ≡ item_slots tree.now.node + gapped_size tree.now.below }
{
    let mut sum = tree.size();
    for item in tree.children.as_slice() {
        if let Item::Tree(child) = item {
            sum += tree_size(child);
        }
    }
    sum
}

/// How many nodes the tree has, its own among them. Their items may take 512 slots, as those of a piece do. It takes no
/// memory.
pub fn count_nodes(tree: &PieceTree) -> u32
    requires { item_slots tree.now.node + gapped_size tree.now.below ≤ 512 }
    ensures { result ≡ 1 + gapped_nodes tree.now.below }
{
    let mut nodes = 1;
    for item in tree.children.as_slice() {
        if let Item::Tree(child) = item {
            nodes += count_nodes(child);
        }
    }
    nodes
}
