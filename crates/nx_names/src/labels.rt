// Labels of nodes, written out.
ghost use Rattle.std.specs.Prelude.{◌≡◌, ◌∷◌, ◌++◌, OnOk};
ghost use Rattle.nx_matrix.specs.Label.{label_by};

use nx_tree::{Kind, NoMemory};

// Writes the label of nodes of this kind and name in place of what was there.
pub(crate) fn write_label(label: &mut Vec<u8>, kind: Kind, name: &[u8]) -> Result<(), NoMemory>
    ensures { OnOk result (label.new.items ≡ label_by kind name.now) }
{
    label.clear();
    match kind {
        Kind::Doc => label.extend_from_slice(b"#doc")?,
        Kind::Text => label.extend_from_slice(b"#text")?,
        Kind::Element => label.extend_from_slice(name)?,
        Kind::Attribute => push_marked(label, b'@', name)?,
        Kind::Instruction => push_marked(label, b'?', name)?,
    }
    Ok(())
}

// Writes a mark and a name behind it.
fn push_marked(label: &mut Vec<u8>, mark: u8, name: &[u8]) -> Result<(), NoMemory>
    ensures { OnOk result (label.new.items ≡ label.old.items ++ mark ∷ name.now) }
{
    label.push(mark)?;
    label.extend_from_slice(name)?;
    Ok(())
}
