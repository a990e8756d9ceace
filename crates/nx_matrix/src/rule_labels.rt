// The labels that rules may be for.
ghost use Rattle.std.specs.Prelude.{◌≡◌};
ghost use Rattle.nx_matrix.specs.RuleLabels.{is_marked_name, is_parent_label, is_child_label};

use crate::LONGEST_LABEL;
use nx_pyx::is_name;

/// Whether a rule may be for parents of this label: `#doc` or a name, of at most 1,024 bytes. It takes
/// no memory.
pub fn is_parent_label(label: &[u8]) -> bool
    ensures { result ≡ is_parent_label label.now }
{
    label.len() <= LONGEST_LABEL && (label == b"#doc".as_slice() || is_name(label))
}

/// Whether a rule may be for children of this label: `#text`, a name, or a name behind `@` or `?`, of
/// at most 1,024 bytes in all. It takes no memory.
pub fn is_child_label(label: &[u8]) -> bool
    ensures { result ≡ is_child_label label.now }
{
    label.len() <= LONGEST_LABEL
        && (label == b"#text".as_slice() || is_name(label) || is_marked_name(label))
}

// Whether the bytes are a name behind `@` or `?`.
fn is_marked_name(label: &[u8]) -> bool
    ensures { result ≡ is_marked_name label.now }
{
    match label.split_first() {
        None => false,
        Some((mark, name)) => matches!(*mark, b'@' | b'?') && is_name(name),
    }
}
