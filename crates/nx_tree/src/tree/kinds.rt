// The kind of the tree at a position.
ghost use Rattle.std.specs.Prelude.{◌≡◌, false, slice_get};
ghost use Rattle.std.specs.Option.{option_map_or};
ghost use Rattle.nx_tree.specs.Document.{is_element, is_attribute};

use super::Tree;
use crate::Kind;

// Whether there is an attribute at the position.
pub fn is_attribute_at(trees: &[Tree], position: usize) -> bool
    ensures { result ≡ option_map_or (λ t. is_attribute t.node.kind) (slice_get trees.now position) false }
{
    match trees.get(position) {
        Some(tree) => tree.node.kind.is_attribute(),
        None => false,
    }
}

// Whether there is an element at the position.
pub fn is_element_at(trees: &[Tree], position: usize) -> bool
    ensures { result ≡ option_map_or (λ t. is_element t.node.kind) (slice_get trees.now position) false }
{
    match trees.get(position) {
        Some(tree) => matches!(tree.node.kind, Kind::Element),
        None => false,
    }
}
