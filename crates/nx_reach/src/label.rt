// Labels of nodes, which are compared without being written out.
ghost use Rattle.std.specs.Prelude.{◌≡◌, ◌∷◌};
ghost use Rattle.std.specs.Str.{bytes_eq};
ghost use Rattle.nx_matrix.specs.Label.{label_by};
ghost use Rattle.nx_reach.specs.Reach.{label_of};

use crate::Step;
use nx_tree::Kind;

// Whether the step asks for nodes of this kind and name.
pub(crate) fn asks(step: &Step, kind: Kind, name: &[u8]) -> bool
    ensures { result ≡ bytes_eq (label_of step.now) (label_by kind name.now) }
{
    match step {
        Step::Child { label } | Step::Below { label } => is_label(label.as_slice(), kind, name),
    }
}

/// Whether the bytes are the label of nodes of this kind and name.
pub fn is_label(bytes: &[u8], kind: Kind, name: &[u8]) -> bool
    ensures { result ≡ bytes_eq bytes.now (label_by kind name.now) }
{
    match kind {
        Kind::Doc => bytes == b"#doc".as_slice(),
        Kind::Text => bytes == b"#text".as_slice(),
        Kind::Element => bytes == name,
        Kind::Attribute => is_marked(bytes, b'@', name),
        Kind::Instruction => is_marked(bytes, b'?', name),
    }
}

// Whether the bytes are these behind a mark.
fn is_marked(bytes: &[u8], mark: u8, unmarked: &[u8]) -> bool
    ensures { result ≡ bytes_eq bytes.now (mark ∷ unmarked.now) }
{
    match bytes.split_first() {
        None => false,
        Some((first, rest)) => *first == mark && rest == unmarked,
    }
}
