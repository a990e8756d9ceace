// Labels of nodes, which are compared without being written out.
ghost use Rattle.std.specs.Prelude.{◌≡◌, Option, List};
ghost use Rattle.std.specs.Cmp.Lexicographic.{slice_cmp};
ghost use Rattle.std.specs.Ordering.{nat_cmp};
ghost use Rattle.nx_matrix.specs.Label.{label, behind_mark, mark_of};
ghost use Rattle.nx_matrix.specs.Rules.{pair_cmp, pair_of};

use crate::Rule;
use nx_tree::{Kind, Node};
use std::cmp::Ordering;

// The byte that labels of nodes of this kind begin with, where there is one.
pub(crate) fn mark_of(kind: Kind) -> Option<u8>
    ensures { result ≡ mark_of kind }
{
    match kind {
        Kind::Doc | Kind::Text => Some(b'#'),
        Kind::Element => None,
        Kind::Attribute => Some(b'@'),
        Kind::Instruction => Some(b'?'),
    }
}

// What stands behind that byte in the label of the node.
pub(crate) fn unmarked(node: &Node) -> &[u8]
    ensures { behind_mark (mark_of node.now.kind) result.now ≡ label node.now }
{
    match node.kind {
        Kind::Doc => b"doc",
        Kind::Text => b"text",
        Kind::Element | Kind::Attribute | Kind::Instruction => node.name.as_slice(),
    }
}

// The order of these bytes and a label.
pub(crate) fn compare_label(bytes: &[u8], mark: Option<u8>, unmarked: &[u8]) -> Ordering
    ensures { result ≡ slice_cmp nat_cmp bytes.now (behind_mark mark unmarked.now) }
{
    let Some(mark) = mark else {
        return bytes.cmp(&unmarked);
    };
    match bytes.split_first() {
        None => Ordering::Less,
        Some((first, rest)) => match first.cmp(&mark) {
            Ordering::Less => Ordering::Less,
            Ordering::Equal => rest.cmp(&unmarked),
            Ordering::Greater => Ordering::Greater,
        },
    }
}

// The order of a rule's labels and these two.
pub(crate) fn compare_rule(
    rule: &Rule,
    parent_mark: Option<u8>,
    parent: &[u8],
    child_mark: Option<u8>,
    child: &[u8],
) -> Ordering
    ensures { result ≡ pair_cmp (pair_of rule.now) (behind_mark parent_mark parent.now, behind_mark child_mark child.now) }
{
    match compare_label(rule.parent.as_slice(), parent_mark, parent) {
        Ordering::Less => Ordering::Less,
        Ordering::Equal => compare_label(rule.child.as_slice(), child_mark, child),
        Ordering::Greater => Ordering::Greater,
    }
}
