// Whether a document may have nodes where a record has them, as far as the record shows it.
ghost use Rattle.std.specs.Prelude.{◌≡◌, ◌↔◌, ◌+◌, ◌≤◌, ◌||◌, IsTrue, true, false, [], length};
ghost use Rattle.nx_tree.specs.declared.node.Node.{Node};
ghost use Rattle.nx_tree.specs.Forest.{Forest};
ghost use Rattle.std.specs.Str.{bytes_eq};
ghost use Rattle.nx_tree.specs.Document.{depth, is_attribute, is_element, is_instruction, longest_node, HasParts, IsForest, IsNode};
ghost use Rattle.nx_pyx.specs.Fault.{is_among};
ghost use Rattle.nx_piece.specs.PieceNode.{content_length};
ghost use Rattle.nx_piece.specs.Flat.{seen_node};
ghost use Rattle.nx_piece.specs.Viewing.{seen_items, seen_tree};
ghost use Rattle.nx_check.specs.Heads.{item_heads, names_among, has_attribute, AreTopHeads, one_if, elements_among, MayHaveHeads};
ghost use Rattle.nx_check.specs.Shown.{IsShownBy, AreShownBy, gapped_depth};

use nx_lists::LONGEST_NODE;
use nx_piece::{ItemView, ItemsView, NodeView, TreeView};
use nx_pyx::is_name;
use nx_tree::Kind;

// Whether each of these may stand where there are so many levels left, and what is below them in their record below them.
#[cycle(stand)]
pub fn stand_at(items: ItemsView<'_>, levels: u32) -> bool
    ensures stands { (trees : Forest) → AreShownBy (seen_items items.entry) trees → (result ≡ true) ↔ (IsForest trees × (depth trees ≤ levels)) }
    ensures low { result ≡ true → gapped_depth (seen_items items.entry) ≤ levels }
{
    let mut left = items;
    while let Some((item, beside)) = left.split_first() {
        if let ItemView::Tree(tree) = item {
            if !stands(tree, levels) {
                return false;
            }
        }
        left = beside;
    }
    true
}

// Whether the tree may stand so.
#[cycle(stand)]
fn stands(tree: TreeView<'_>, levels: u32) -> bool
    ensures stands { (node : Node) → (trees : Forest) → IsShownBy (seen_node tree.entry.node) node → AreShownBy (seen_items tree.entry.children) trees
        → (result ≡ true) ↔ (IsNode node × MayHaveHeads node.kind (item_heads (seen_items tree.entry.children)) × IsForest trees × (1 + depth trees ≤ levels)) }
    ensures low { result ≡ true → 1 + gapped_depth (seen_items tree.entry.children) ≤ levels }
{
    if levels == 0 {
        return false;
    }
    if !is_node(tree.node) {
        return false;
    }
    if !may_have(tree) {
        return false;
    }
    stand_at(tree.children, levels - 1)
}

// Whether a document may have the node below its root.
fn is_node(node: NodeView<'_>) -> bool
    ensures { (shown : Node) → IsShownBy (seen_node node.entry) shown → (result ≡ true) ↔ IsNode shown }
{
    has_parts(node) && is_short(node.name, content_len(node))
}

// Whether the name and the content have no more bytes together than are allowed.
fn is_short(name: &[u8], content: usize) -> bool
    ensures { (result ≡ true) ↔ (length name.now + content ≤ longest_node) }
{
    match LONGEST_NODE.checked_sub(name.len()) {
        None => false,
        Some(room) => content <= room,
    }
}

// How many bytes the content of the node has, wherever it stands.
pub fn content_len(node: NodeView<'_>) -> usize
    ensures { result ≡ content_length (seen_node node.entry) }
{
    match node.far {
        None => node.content.len(),
        Some(far) => far.length as usize,
    }
}

// Whether a node below the root has such a name and such a content where it is of this kind.
fn has_parts(node: NodeView<'_>) -> bool
    ensures { (shown : Node) → IsShownBy (seen_node node.entry) shown → (result ≡ true) ↔ HasParts shown.kind shown.name shown.content }
{
    match node.kind {
        Kind::Doc => false,
        Kind::Element => is_name(node.name) && content_len(node) == 0,
        Kind::Attribute | Kind::Instruction => is_name(node.name),
        Kind::Text => node.name.is_empty(),
    }
}

// Whether the tree's root may have what stands below it in its record.
fn may_have(tree: TreeView<'_>) -> bool
    ensures { (result ≡ true) ↔ MayHaveHeads tree.entry.node.kind (item_heads (seen_items tree.entry.children)) }
{
    match tree.node.kind {
        Kind::Element => attributes_fit(tree.children),
        _ => has_no_tree(tree.children),
    }
}

// Whether no tree is among these.
pub fn has_no_tree(items: ItemsView<'_>) -> bool
    ensures { (result ≡ true) ↔ (item_heads (seen_items items.entry) ≡ []) }
{
    let mut left = items;
    while let Some((item, beside)) = left.split_first() {
        if let ItemView::Tree(_) = item {
            return false;
        }
        left = beside;
    }
    true
}

// Whether the attributes among these come first, and no two of them have one name.
fn attributes_fit(items: ItemsView<'_>) -> bool
    ensures { (result ≡ true) ↔ MayHaveHeads Kind.Element (item_heads (seen_items items.entry)) }
{
    let mut begun = false;
    let mut left = items;
    while let Some((item, beside)) = left.split_first() {
        if let ItemView::Tree(tree) = item {
            if !is_attribute(tree.node.kind) {
                begun = true;
            } else if begun || has_attribute_named(beside, tree.node.name) {
                return false;
            }
        }
        left = beside;
    }
    true
}

// Whether a node of this kind is an attribute.
pub fn is_attribute(kind: Kind) -> bool
    ensures { result ≡ is_attribute kind }
{
    matches!(kind, Kind::Attribute)
}

// Whether these names are the same.
fn is_same(name: &[u8], other: &[u8]) -> bool
    ensures { result ≡ bytes_eq name.now other.now }
{
    name == other
}

// Whether an attribute of this name is among these.
pub fn has_attribute_named(items: ItemsView<'_>, name: &[u8]) -> bool
    ensures { result ≡ is_among name.now (names_among (item_heads (seen_items items.entry))) }
{
    let mut left = items;
    while let Some((item, beside)) = left.split_first() {
        if let ItemView::Tree(tree) = item {
            if is_attribute(tree.node.kind) && is_same(name, tree.node.name) {
                return true;
            }
        }
        left = beside;
    }
    false
}

// Whether an attribute is among these.
pub fn some_attribute(items: ItemsView<'_>) -> bool
    ensures { result ≡ has_attribute (item_heads (seen_items items.entry)) }
{
    let mut left = items;
    while let Some((item, beside)) = left.split_first() {
        if let ItemView::Tree(tree) = item {
            if is_attribute(tree.node.kind) {
                return true;
            }
        }
        left = beside;
    }
    false
}

// Whether these may stand right below the root of a document: elements, of which there is one at most, and instructions. `element`
// says whether one stands there.
pub fn may_be_top(items: ItemsView<'_>, element: &mut bool) -> bool
    ensures yes { result ≡ true → AreTopHeads (item_heads (seen_items items.entry)) × (one_if element.new ≡ one_if element.old + elements_among (item_heads (seen_items items.entry))) }
    ensures no { result ≡ false → AreTopHeads (item_heads (seen_items items.entry)) → one_if element.old + elements_among (item_heads (seen_items items.entry)) ≤ 1 → ⊥ }
{
    let mut left = items;
    while let Some((item, beside)) = left.split_first() {
        if let ItemView::Tree(tree) = item {
            if !may_be_beside(tree.node.kind, element) {
                return false;
            }
        }
        left = beside;
    }
    true
}

// Whether a node of this kind may stand right below the root too.
fn may_be_beside(kind: Kind, element: &mut bool) -> bool
    ensures yes { result ≡ true → IsTrue (is_element kind || is_instruction kind) × (one_if element.new ≡ one_if element.old + one_if (is_element kind)) }
    ensures no { result ≡ false → IsTrue (is_element kind || is_instruction kind) → one_if element.old + one_if (is_element kind) ≤ 1 → ⊥ }
{
    match kind {
        Kind::Element if !*element => {
            *element = true;
            true
        }
        Kind::Instruction => true,
        _ => false,
    }
}
