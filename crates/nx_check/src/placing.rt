// Whether the roots of a record may stand in a document.
ghost use Rattle.std.specs.Prelude.{◌≡◌, ◌≢◌, ◌↔◌, ◌+◌, ◌≤◌, ℕ, [], false, true, IfOk};
ghost use Rattle.std.specs.Bool.{MatchBool};
ghost use Rattle.nx_tree.specs.declared.node.Node.{Node};
ghost use Rattle.nx_tree.specs.Forest.{Forest};
ghost use Rattle.nx_piece.specs.Flat.{seen_node};
ghost use Rattle.nx_piece.specs.Gapped.{Grow, gapped_width};
ghost use Rattle.nx_piece.specs.Valid.{AreTrees};
ghost use Rattle.nx_piece.specs.Viewing.{seen_items};
ghost use Rattle.nx_cuts.specs.Cut.{joined};
ghost use Rattle.nx_rules.specs.Walked.{IsSoFar};
ghost use Rattle.nx_rules.specs.Tour.{top_elements};
ghost use Rattle.nx_rules.specs.Places.{MayBeBelow};
ghost use Rattle.nx_check.specs.Heads.{heads, item_heads, one_if};
ghost use Rattle.nx_check.specs.Shown.{IsShownBy, AreShownBy, gapped_depth};
ghost use Rattle.nx_check.specs.Siblings.{StandAround};

use crate::judging::{content_len, has_no_tree, may_be_top, stand_at};
use crate::siblings::Siblings;
use nx_lists::{DEEPEST, NoMemory};
use nx_piece::{ItemView, ItemsView, NodeView, TreeView};
use nx_tree::Kind;

// Whether these roots may stand at the place that was come to, where so many levels of nodes may stand. Where they may, they do. `element`
// says whether an element stands right below the document's root.
pub fn may_join(
    siblings: &mut Siblings<'_>,
    roots: ItemsView<'_>,
    levels: u32,
    element: &mut bool,
) -> Result<bool, NoMemory>
    ensures same { siblings.new.kind ≡ siblings.old.kind }
    ensures other { siblings.old.kind ≢ Kind.Doc → element.new ≡ element.old }
    ensures low { IfOk result (λ fit. fit ≡ true → gapped_depth (seen_items roots.entry) ≤ levels) }
    ensures ok { IfOk result (λ fit. (before behind new : Forest) (level : ℕ) → level + levels ≡ 257 → StandAround siblings.old element.old (heads before) (heads behind)
        → MayBeBelow siblings.old.kind level (joined before behind) → AreShownBy (seen_items roots.entry) new
        → MatchBool fit (MayBeBelow siblings.old.kind level (joined (joined before new) behind) × StandAround siblings.new element.new (heads (joined before new)) (heads behind))
        (MayBeBelow siblings.old.kind level (joined (joined before new) behind) → ⊥)) }
{
    if !siblings.join(roots, element)? {
        return Ok(false);
    }
    Ok(stand_at(roots, levels))
}

// Whether the roots of the record that the catalog names are one root of a document, with what may stand below it. `element` says
// whether an element stands right below.
pub fn may_be_root(roots: ItemsView<'_>, element: &mut bool) -> bool
    requires trees { AreTrees (seen_items roots) }
    requires some { 1 ≤ gapped_width (seen_items roots) }
    requires clear { element.old ≡ false }
    ensures low { result ≡ true → gapped_depth (seen_items roots.entry) ≤ 257 }
    ensures ok { (new : Forest) → AreShownBy (seen_items roots.entry) new → MatchBool result (IsSoFar new × (one_if element.new ≡ top_elements new)) (IsSoFar new → ⊥) }
{
    match roots.split_first() {
        Some((ItemView::Tree(tree), beside)) => is_root_tree(tree, beside, element),
        _ => false,
    }
}

// Whether the tree is one root of a document, and no other tree is beside it.
fn is_root_tree(tree: TreeView<'_>, beside: ItemsView<'_>, element: &mut bool) -> bool
    requires { element.old ≡ false }
    ensures low { result ≡ true → gapped_depth (seen_items tree.entry.children) ≤ 256 }
    ensures ok { (new : Forest) → AreShownBy (Grow (seen_node tree.entry.node) (seen_items tree.entry.children) (seen_items beside.entry)) new
        → MatchBool result (IsSoFar new × (one_if element.new ≡ top_elements new)) (IsSoFar new → ⊥) }
    ensures alone { result ≡ true → item_heads (seen_items beside.entry) ≡ [] }
{
    if !is_root_node(tree.node) {
        return false;
    }
    if !has_no_tree(beside) {
        return false;
    }
    if !may_be_top(tree.children, element) {
        return false;
    }
    stand_at(tree.children, DEEPEST as u32)
}

// Whether the node is the root of a document.
fn is_root_node(node: NodeView<'_>) -> bool
    ensures { (shown : Node) → IsShownBy (seen_node node.entry) shown → (result ≡ true) ↔ ((shown.kind ≡ Kind.Doc) × (shown.name ≡ []) × (shown.content ≡ [])) }
{
    matches!(node.kind, Kind::Doc) && node.name.is_empty() && content_len(node) == 0
}
