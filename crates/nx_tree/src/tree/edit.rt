// Edits of a document by path. Each walks down the path once, and on its way back corrects the
// numbers of nodes.
ghost use Rattle.std.specs.Prelude.{◌≡◌, ◌≢◌, ◌+◌, ◌<◌, ◌≤◌, length, if◌then◌else◌, Option, None, Some, is_some, IfSome, OnOk, OnErr, IfOk, IfErr};
ghost use Rattle.std.specs.List.{list_any};
ghost use Rattle.std.specs.Option.{option_or};
ghost use Rattle.std.specs.Result.{result_err};
ghost use Rattle.std.specs.Str.{bytes_eq};
ghost use Rattle.nx_tree.specs.declared.error.TreeError.TheVariants.{NoNode, NoContent, Memory};
ghost use Rattle.nx_tree.specs.Forest.{Empty, nodes, forest_of};
ghost use Rattle.nx_tree.specs.Document.{IsDocument, IsNode, IsForest, AttributesComeFirst, attribute_names, longest_node, most_nodes};
ghost use Rattle.nx_tree.specs.Edit.{at, child, planted_at, removed_at, put, cut_at, retext, has_children, is_unordered, is_misplaced, is_repeated, is_root_element, place_refusal, limit_refusal, put_refusal, insert_refusal, cut_refusal, delete_refusal, retext_refusal, refusal_in};

use super::kinds::{is_attribute_at, is_element_at};
use super::measure::count;
use super::{Tree, Trees};
use crate::{Bytes, Kind, Node, TreeError};
use nx_lists::{DEEPEST, MOST_NODES};
use std::alloc::Global;

/// Puts the node, without children, at the path, before the sibling that stands there.
///
/// The first of these that applies refuses it: `BadPlace` for the empty path; `NoNode` where the
/// parent isn't there; `BadPlace` where the parent is no element and no root of a document, has
/// fewer children than the position says, is the root and the node no instruction, or where an
/// attribute would stand behind another node; `Twice` for an attribute of a name that the element
/// has; `TooDeep` below a node of depth 256; `TooMany` where the document has 524,288 nodes. Besides
/// it answers `Memory`. A refusal leaves the tree as it was, and drops the node.
pub fn insert_at(alloc: Global, tree: &mut Tree, path: &[u32], node: Node) -> Result<(), TreeError>
    requires document { IsDocument tree.old }
    requires node { IsNode node }
    ensures ok { OnOk result (tree.new ≡ put node path.now tree.old) }
    ensures err { OnErr result (tree.new ≡ tree.old) }
    ensures refused { refusal_in result ≡ insert_refusal node path.now tree.old }
    ensures document { IsDocument tree.new }
{
    let new = Tree {
        node,
        children: Trees::new(alloc),
    };
    let limit = limit(tree, path);
    insert_in(tree, path, new, limit)
}

/// Takes the tree at the path away. It takes no memory.
///
/// The first of these that applies refuses it: `BadPlace` for the empty path, `NoNode` where the
/// path leads nowhere, `BadPlace` for the root element. A refusal leaves the tree as it was.
pub fn delete_at(tree: &mut Tree, path: &[u32]) -> Result<(), TreeError>
    requires { IsDocument tree.old }
    ensures ok { OnOk result (tree.new ≡ cut_at path.now tree.old) }
    ensures err { OnErr result (tree.new ≡ tree.old) }
    ensures refused { result_err result ≡ delete_refusal path.now tree.old }
    ensures memory { IfErr result (λ error. error ≢ Memory) }
    ensures document { IsDocument tree.new }
{
    if is_root_element(tree, path) {
        return Err(TreeError::BadPlace);
    }
    delete_in(tree, path)?;
    Ok(())
}

/// Replaces the content of the node at the path. It takes no memory. Where the path leads to a node,
/// its name and the new content may have at most 1,048,576 bytes together.
///
/// The first of these that applies refuses it: `NoNode` where the path leads nowhere, `NoContent`
/// where the node is an element or the root of the document. A refusal leaves the tree as it was,
/// and drops the content.
pub fn retext_at(tree: &mut Tree, path: &[u32], content: Bytes) -> Result<(), TreeError>
    requires document { IsDocument tree.old }
    requires short { IfSome (at tree.old path.now) (λ t. length t.node.name + length content ≤ longest_node) }
    ensures ok { OnOk result (tree.new ≡ retext content path.now tree.old) }
    ensures err { OnErr result (tree.new ≡ tree.old) }
    ensures refused { result_err result ≡ retext_refusal path.now tree.old }
    ensures memory { IfErr result (λ error. error ≢ Memory) }
    ensures document { IsDocument tree.new }
{
    retext_in(tree, path, content)
}

// Why no node at all may be put at the path.
fn limit(tree: &Tree, path: &[u32]) -> Option<TreeError>
    requires { IsDocument tree.now }
    ensures { result ≡ limit_refusal path.now tree.now }
{
    if path.len() > DEEPEST {
        Some(TreeError::TooDeep)
    } else if count(tree) >= MOST_NODES {
        Some(TreeError::TooMany)
    } else {
        None
    }
}

// Puts the new node at the path, unless the limit forbids it.
fn insert_in(
    tree: &mut Tree,
    path: &[u32],
    new: Tree,
    limit: Option<TreeError>,
) -> Result<(), TreeError>
    requires leaf { new.below ≡ Empty }
    requires limit { IfSome limit (λ e. e ≢ Memory) }
    requires ordered { AttributesComeFirst tree.old.below }
    requires forest { IsForest tree.old.below }
    requires small { nodes tree.old.below < most_nodes }
    ensures ok { OnOk result (tree.new ≡ put new.node path.now tree.old) }
    ensures err { OnErr result (tree.new ≡ tree.old) }
    ensures refused { refusal_in result ≡ put_refusal limit new.node path.now tree.old }
{
    let Some((position, path)) = path.split_first() else {
        return Err(TreeError::BadPlace);
    };
    let position = *position as usize;
    if path.is_empty() {
        return insert_child(tree, position, new, limit);
    }
    let children = &mut tree.children;
    let Some(child) = children.trees.get_mut(position) else {
        return Err(TreeError::NoNode);
    };
    insert_in(child, path, new, limit)?;
    children.node_count += 1;
    Ok(())
}

// Puts the new node before the child at the position, unless the limit forbids it.
fn insert_child(
    tree: &mut Tree,
    position: usize,
    new: Tree,
    limit: Option<TreeError>,
) -> Result<(), TreeError>
    requires leaf { new.below ≡ Empty }
    requires limit { IfSome limit (λ e. e ≢ Memory) }
    requires ordered { AttributesComeFirst tree.old.below }
    requires small { nodes tree.old.below < most_nodes }
    ensures ok { OnOk result (tree.new ≡ record tree.old { below = planted_at position new tree.old.below }) }
    ensures err { OnErr result (tree.new ≡ tree.old) }
    ensures refused { refusal_in result ≡ option_or (place_refusal new.node position tree.old) limit }
{
    if is_misplaced(&new.node, position, tree) {
        return Err(TreeError::BadPlace);
    }
    if is_repeated(&new.node, tree) {
        return Err(TreeError::Twice);
    }
    if let Some(error) = limit {
        return Err(error);
    }
    let children = &mut tree.children;
    children.trees.insert(position, new)?;
    children.node_count += 1;
    Ok(())
}

// Whether the node may not stand before the child at the position.
fn is_misplaced(node: &Node, position: usize, parent: &Tree) -> bool
    requires { AttributesComeFirst parent.now.below }
    ensures { result ≡ is_misplaced node.now position parent.now }
{
    let children = parent.children.as_slice();
    let may_hold = match parent.node.kind {
        Kind::Doc => matches!(node.kind, Kind::Instruction),
        Kind::Element => true,
        _ => false,
    };
    !may_hold || position > children.len() || is_unordered(node.kind, position, children)
}

// Whether with a node of this kind before the child at the position an attribute would stand behind
// another node.
fn is_unordered(kind: Kind, position: usize, children: &[Tree]) -> bool
    requires within { position ≤ length children.now }
    requires ordered { AttributesComeFirst (forest_of children.now) }
    ensures { result ≡ is_unordered kind position children.now }
{
    if kind.is_attribute() {
        position > 0 && !is_attribute_at(children, position - 1)
    } else {
        is_attribute_at(children, position)
    }
}

// Whether the node is an attribute, and one of its name is there.
fn is_repeated(node: &Node, parent: &Tree) -> bool
    requires { AttributesComeFirst parent.now.below }
    ensures { result ≡ is_repeated node.now parent.now }
{
    node.kind.is_attribute() && has_attribute(node.name.as_slice(), parent.children.as_slice())
}

// Whether an attribute of that name is among the trees.
fn has_attribute(name: &[u8], trees: &[Tree]) -> bool
    requires { AttributesComeFirst (forest_of trees.now) }
    ensures { result ≡ list_any (bytes_eq name.now) (attribute_names (forest_of trees.now)) }
{
    for tree in trees {
        if !tree.node.kind.is_attribute() {
            return false;
        }
        if name == tree.node.name.as_slice() {
            return true;
        }
    }
    false
}

// Whether the path is that of an element below the root.
fn is_root_element(tree: &Tree, path: &[u32]) -> bool
    ensures { result ≡ is_root_element path.now tree.now }
{
    match path {
        [position] => is_element_at(tree.children.as_slice(), *position as usize),
        _ => false,
    }
}

// Takes the tree at the path away, and tells how many nodes it had.
fn delete_in(tree: &mut Tree, path: &[u32]) -> Result<u32, TreeError>
    ensures ok { OnOk result (tree.new ≡ cut_at path.now tree.old) }
    ensures removed { IfOk result (λ removed. nodes tree.new.below + removed ≡ nodes tree.old.below) }
    ensures err { OnErr result (tree.new ≡ tree.old) }
    ensures refused { result_err result ≡ cut_refusal path.now tree.old }
{
    let Some((position, path)) = path.split_first() else {
        return Err(TreeError::BadPlace);
    };
    let position = *position as usize;
    if path.is_empty() {
        return delete_child(tree, position);
    }
    let children = &mut tree.children;
    let Some(child) = children.trees.get_mut(position) else {
        return Err(TreeError::NoNode);
    };
    let removed = delete_in(child, path)?;
    children.node_count -= removed;
    Ok(removed)
}

// Takes the child at the position away, and tells how many nodes it had.
fn delete_child(tree: &mut Tree, position: usize) -> Result<u32, TreeError>
    ensures ok { OnOk result (tree.new ≡ record tree.old { below = removed_at position tree.old.below }) }
    ensures removed { IfOk result (λ removed. nodes tree.new.below + removed ≡ nodes tree.old.below) }
    ensures err { OnErr result (tree.new ≡ tree.old) }
    ensures refused { result_err result ≡ (if is_some (child tree.old.below position) then None else Some NoNode) }
{
    let children = &mut tree.children;
    if position >= children.trees.as_slice().len() {
        return Err(TreeError::NoNode);
    }
    let child = children.trees.remove(position);
    let removed = 1 + child.children.node_count();
    children.node_count -= removed;
    Ok(removed)
}

// Replaces the content of the node at the path.
fn retext_in(tree: &mut Tree, path: &[u32], content: Bytes) -> Result<(), TreeError>
    ensures ok { OnOk result (tree.new ≡ retext content path.now tree.old) }
    ensures err { OnErr result (tree.new ≡ tree.old) }
    ensures refused { result_err result ≡ retext_refusal path.now tree.old }
{
    let Some((position, path)) = path.split_first() else {
        return retext_node(&mut tree.node, content);
    };
    let position = *position as usize;
    let children = &mut tree.children;
    let Some(child) = children.trees.get_mut(position) else {
        return Err(TreeError::NoNode);
    };
    retext_in(child, path, content)
}

// Replaces the content of the node, unless it is of a kind without one.
fn retext_node(node: &mut Node, content: Bytes) -> Result<(), TreeError>
    ensures ok { OnOk result (node.new ≡ record node.old { content = content }) }
    ensures err { OnErr result (node.new ≡ node.old) }
    ensures refused { result_err result ≡ (if has_children node.old.kind then Some NoContent else None) }
{
    if node.kind.has_children() {
        return Err(TreeError::NoContent);
    }
    node.content = content;
    Ok(())
}
