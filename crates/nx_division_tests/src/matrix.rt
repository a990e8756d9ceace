// Rules of a matrix, set and listed.
use nx_matrix::{Entry, Matrix, MatrixError, Rule};
use nx_tree::{Bytes, Kind, Node};
use std::alloc::Global;
use std::test::Fail;

fn is_rule(rule: &Rule, parent: &[u8], child: &[u8], entry: Entry) -> bool {
    rule.parent.as_slice() == parent && rule.child.as_slice() == child && rule.entry == entry
}

#[test]
fn rules_are_set_and_taken_away(rt: HostRuntime) -> Result<(), Fail> {
    let alloc = rt.alloc();
    let mut matrix = Matrix::new(alloc);
    matrix.set(b"b", b"#text", Entry::Standalone)?;
    matrix.set(b"a", b"b", Entry::Cluster)?;
    let rules = matrix.rules()?;
    let [first, second] = rules.as_slice() else {
        panic!(rt; "there are not two rules");
    };
    assert!(rt; is_rule(first, b"a", b"b", Entry::Cluster));
    assert!(rt; is_rule(second, b"b", b"#text", Entry::Standalone));
    matrix.set(b"a", b"b", Entry::Free)?;
    matrix.set(b"b", b"#text", Entry::Free)?;
    assert!(rt; matrix.rules()?.is_empty());
    assert_eq!(rt; matrix.len(), 0);
    Ok(())
}

fn make_node(alloc: Global, kind: Kind, name: &[u8]) -> Result<Node, Fail> {
    Ok(Node {
        kind,
        name: Bytes::from_slice(alloc, name)?,
        content: Bytes::new(alloc),
    })
}

#[test]
fn entries_of_nodes(rt: HostRuntime) -> Result<(), Fail> {
    let alloc = rt.alloc();
    let mut matrix = Matrix::new(alloc);
    matrix.set(b"a", b"#text", Entry::Cluster)?;
    matrix.set(b"#doc", b"?a", Entry::Standalone)?;
    let document = make_node(alloc, Kind::Doc, b"")?;
    let element = make_node(alloc, Kind::Element, b"a")?;
    let text = make_node(alloc, Kind::Text, b"")?;
    let instruction = make_node(alloc, Kind::Instruction, b"a")?;
    assert_eq!(rt; matrix.entry(&element, &text), Entry::Cluster);
    assert_eq!(rt; matrix.entry(&document, &element), Entry::Free);
    assert_eq!(rt; matrix.entry(&document, &instruction), Entry::Standalone);
    Ok(())
}

// The last rules that fit, and one too many.
#[test]
fn full_matrix(rt: HostRuntime) -> Result<(), Fail> {
    let alloc = rt.alloc();
    let mut matrix = Matrix::new(alloc);
    for number in 0..4096u32 {
        let name = [b'a' + (number % 16) as u8, b'a' + (number / 16 % 16) as u8];
        let child = [b'a' + (number / 256 % 16) as u8];
        matrix.set(&name, &child, Entry::Cluster)?;
    }
    assert_eq!(rt; matrix.len(), 4096);
    assert_eq!(rt;
        matrix.set(b"zz", b"z", Entry::Cluster),
        Err(MatrixError::TooManyRules)
    );
    assert_eq!(rt; matrix.set(b"zz", b"z", Entry::Free), Ok(()));
    assert_eq!(rt; matrix.set(b"aa", b"a", Entry::Standalone), Ok(()));
    assert_eq!(rt; matrix.set(b"pp", b"p", Entry::Free), Ok(()));
    assert_eq!(rt; matrix.set(b"zz", b"z", Entry::Cluster), Ok(()));
    assert_eq!(rt; matrix.rules()?.len(), 4096);
    Ok(())
}
