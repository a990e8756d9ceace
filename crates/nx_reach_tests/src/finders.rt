// A finder that isn't shown the trees without a node of the last step's label finds the same.
ghost use Rattle.std.specs.Prelude.{◌≡◌};

use crate::cases::CASES;
use crate::found::{lines, read, steps};
use nx_lists::NoMemory;
use nx_reach::{Finder, Step};
use nx_tree::{Bytes, Kind, Node, Tree};
use std::alloc::Global;
use std::process::Abort;
use std::test::Fail;

// Whether a node has a label, by its parts.
fn is_labelled(node: &Node, label: &[u8]) -> bool {
    match node.kind {
        Kind::Doc => false,
        Kind::Text => label == b"#text".as_slice(),
        Kind::Element => label == node.name.as_slice(),
        Kind::Attribute => label.strip_prefix(b"@".as_slice()) == Some(node.name.as_slice()),
        Kind::Instruction => label.strip_prefix(b"?".as_slice()) == Some(node.name.as_slice()),
    }
}

fn holds(tree: &Tree, label: &[u8]) -> bool {
    if is_labelled(&tree.node, label) {
        return true;
    }
    let items = tree.children.as_slice();
    for child in items {
        if holds(child, label) {
            return true;
        }
    }
    false
}

// Shows the finder what stands below a node.
fn show(finder: &mut Finder<'_>, tree: &Tree, label: &[u8]) -> Result<(), NoMemory> {
    let items = tree.children.as_slice();
    for child in items {
        if holds(child, label) {
            finder.open(child.node.kind, child.node.name.as_slice())?;
            show(finder, child, label)?;
            finder.close()?;
        } else {
            finder.skip(1)?;
        }
    }
    Ok(())
}

fn last_label(steps: &[Step]) -> &[u8] {
    match steps.last() {
        Some(Step::Child { label }) | Some(Step::Below { label }) => label.as_slice(),
        None => b"",
    }
}

fn found(alloc: Global, document: &[u8], text: &[u8]) -> Result<Bytes, Fail> {
    let tree = read(alloc, document)?;
    let steps = steps(alloc, text)?;
    let mut finder = Finder::new(alloc, &steps);
    show(&mut finder, &tree, last_label(steps.as_slice()))?;
    Ok(lines(alloc, &finder.into_found())?)
}

#[test]
fn cases(rt: HostRuntime) -> Result<(), Fail> {
    for (document, text, want) in CASES {
        assert_eq!(rt; found(rt.alloc(), document, text)?.as_slice(), want);
    }
    Ok(())
}
