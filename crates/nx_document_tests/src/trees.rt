// Each edit, each of its refusals, and what the other calls answer.
ghost use Rattle.std.specs.Prelude.{◌≡◌, length, IfOk, IfSome};
ghost use Rattle.nx_tree.specs.Document.{IsDocument};
ghost use Rattle.nx_tree.specs.Edit.{at};

use crate::checks::{check_bytes, check_count};
use crate::fixtures::{node, read};
use nx_pyx::{ReadError, write};
use nx_tree::{
    Bytes, NoMemory, Tree, TreeError, count, delete_at, depth, insert_at, node_at, retext_at,
};
use std::alloc::Global;
use std::process::Abort;
use std::test::Fail;

const SAMPLE: &[u8] = b"?p 3\n(e\nAx 1\n-hi\n(e\n)e\n)e\n";

const BAD_PLACE: Result<&[u8], TreeError> = Err(TreeError::BadPlace);

const NO_NODE: Result<&[u8], TreeError> = Err(TreeError::NoNode);

const NO_CONTENT: Result<&[u8], TreeError> = Err(TreeError::NoContent);

// A path in the sample, the line of a node that is put there, and what comes of it.
const INSERTS: [(&[u32], &[u8], Result<&[u8], TreeError>); 14] = [
    (&[], b"?p 3", BAD_PLACE),
    (&[2, 0], b"-hi", NO_NODE),
    (&[1, 1, 0], b"-hi", BAD_PLACE),
    (&[1, 4], b"-hi", BAD_PLACE),
    (&[0], b"(e", BAD_PLACE),
    (&[1, 2], b"Ay 2", BAD_PLACE),
    (&[1, 0], b"-hi", BAD_PLACE),
    (&[1, 2], b"Ax 1", BAD_PLACE),
    (&[1, 1], b"Ax 1", Err(TreeError::Twice)),
    (
        &[1, 0],
        b"Ay 2",
        Ok(b"?p 3\n(e\nAy 2\nAx 1\n-hi\n(e\n)e\n)e\n"),
    ),
    (
        &[1, 1],
        b"Ay 2",
        Ok(b"?p 3\n(e\nAx 1\nAy 2\n-hi\n(e\n)e\n)e\n"),
    ),
    (
        &[1, 3],
        b"-hi",
        Ok(b"?p 3\n(e\nAx 1\n-hi\n(e\n)e\n-hi\n)e\n"),
    ),
    (
        &[1, 2, 0],
        b"(e",
        Ok(b"?p 3\n(e\nAx 1\n-hi\n(e\n(e\n)e\n)e\n)e\n"),
    ),
    (
        &[2],
        b"?p 3",
        Ok(b"?p 3\n(e\nAx 1\n-hi\n(e\n)e\n)e\n?p 3\n"),
    ),
];

// A path in the sample, and what comes of it if the tree there is taken away.
const DELETES: [(&[u32], Result<&[u8], TreeError>); 5] = [
    (&[], BAD_PLACE),
    (&[1, 3], NO_NODE),
    (&[1], BAD_PLACE),
    (&[0], Ok(b"(e\nAx 1\n-hi\n(e\n)e\n)e\n")),
    (&[1, 2], Ok(b"?p 3\n(e\nAx 1\n-hi\n)e\n")),
];

// The same if the content of the node there is replaced by `z`.
const RETEXTS: [(&[u32], Result<&[u8], TreeError>); 5] = [
    (&[1, 1, 0], NO_NODE),
    (&[], NO_CONTENT),
    (&[1], NO_CONTENT),
    (&[1, 0], Ok(b"?p 3\n(e\nAx z\n-hi\n(e\n)e\n)e\n")),
    (&[1, 1], Ok(b"?p 3\n(e\nAx 1\n-z\n(e\n)e\n)e\n")),
];

// The document of the sample.
fn sample(alloc: Global) -> Result<Tree, ReadError>
    ensures { IfOk result (λ tree. IsDocument tree) }
{
    read(alloc, SAMPLE)
}

fn text_of(alloc: Global, tree: &Tree) -> Result<Bytes, NoMemory> {
    write(alloc, tree)
}

// The edit of the sample was answered so, and left that document of so many nodes.
fn check(
    rt: &impl Abort,
    alloc: Global,
    answer: Result<(), TreeError>,
    tree: &Tree,
    want: Result<&[u8], TreeError>,
    nodes: u32,
) -> Result<(), Fail>
    requires { IsDocument tree.now }
{
    check_answer(rt, answer, want);
    let text = text_of(alloc, tree)?;
    check_bytes(rt, text.as_slice(), text_after(want));
    check_count(rt, count(tree), nodes_after(want, nodes));
    Ok(())
}

fn check_answer(rt: &impl Abort, answer: Result<(), TreeError>, want: Result<&[u8], TreeError>) {
    assert_eq!(rt; answer.err(), want.err());
}

fn text_after(want: Result<&[u8], TreeError>) -> &[u8] {
    want.unwrap_or(SAMPLE)
}

fn nodes_after(want: Result<&[u8], TreeError>, nodes: u32) -> u32 {
    if want.is_ok() { nodes } else { 6 }
}

fn check_insert(
    rt: &impl Abort,
    alloc: Global,
    path: &[u32],
    line: &[u8],
    want: Result<&[u8], TreeError>,
) -> Result<(), Fail> {
    let mut tree = sample(alloc)?;
    let answer = insert(alloc, &mut tree, path, line);
    check(rt, alloc, answer, &tree, want, 7)
}

#[test]
fn inserts(rt: HostRuntime) -> Result<(), Fail> {
    for (path, line, want) in INSERTS {
        check_insert(&rt, rt.alloc(), path, line, want)?;
    }
    Ok(())
}

fn check_delete(
    rt: &impl Abort,
    alloc: Global,
    path: &[u32],
    want: Result<&[u8], TreeError>,
) -> Result<(), Fail> {
    let mut tree = sample(alloc)?;
    let answer = delete(&mut tree, path);
    check(rt, alloc, answer, &tree, want, 5)
}

#[test]
fn deletes(rt: HostRuntime) -> Result<(), Fail> {
    for (path, want) in DELETES {
        check_delete(&rt, rt.alloc(), path, want)?;
    }
    Ok(())
}

// The length of the name of the node at the path, or 0 where there is none.
fn name_len(tree: &Tree, path: &[u32]) -> usize
    requires { IsDocument tree.now }
    ensures { IfSome (at tree.now path.now) (λ t. length t.node.name ≡ result) }
{
    match node_at(tree, path) {
        Ok(found) => found.node.name.len(),
        Err(_) => 0,
    }
}

// The same edits as the library's, of which a test needs to know only that a document stays one.
fn insert(alloc: Global, tree: &mut Tree, path: &[u32], line: &[u8]) -> Result<(), TreeError>
    requires { IsDocument tree.old }
    ensures { IsDocument tree.new }
{
    insert_at(alloc, tree, path, node(alloc, line)?)
}

fn delete(tree: &mut Tree, path: &[u32]) -> Result<(), TreeError>
    requires { IsDocument tree.old }
    ensures { IsDocument tree.new }
{
    delete_at(tree, path)
}

fn retext(rt: &impl Abort, alloc: Global, tree: &mut Tree, path: &[u32]) -> Result<(), TreeError>
    requires { IsDocument tree.old }
    ensures { IsDocument tree.new }
{
    assert!(rt; name_len(tree, path) < 1_048_576);
    retext_at(tree, path, Bytes::from_slice(alloc, b"z")?)
}

fn check_retext(
    rt: &impl Abort,
    alloc: Global,
    path: &[u32],
    want: Result<&[u8], TreeError>,
) -> Result<(), Fail> {
    let mut tree = sample(alloc)?;
    let answer = retext(rt, alloc, &mut tree, path);
    check(rt, alloc, answer, &tree, want, 6)
}

#[test]
fn retexts(rt: HostRuntime) -> Result<(), Fail> {
    for (path, want) in RETEXTS {
        check_retext(&rt, rt.alloc(), path, want)?;
    }
    Ok(())
}

fn counts(tree: &Tree) -> (u32, u32)
    requires { IsDocument tree.now }
{
    (count(tree), depth(tree))
}

// So many nodes, and so deep.
fn check_size(rt: &impl Abort, found: (u32, u32), want: (u32, u32)) {
    assert_eq!(rt; found, want);
}

// The document of one element.
fn element(alloc: Global) -> Result<Tree, ReadError>
    ensures { IfOk result (λ tree. IsDocument tree) }
{
    read(alloc, b"(e\n)e\n")
}

// Puts one more element below the deepest, until there are 256.
fn deepen(alloc: Global, tree: &mut Tree, path: &[u32; 257]) -> Result<(), TreeError>
    requires { IsDocument tree.old }
    ensures { IsDocument tree.new }
{
    for len in 2..257 {
        insert(alloc, tree, &path[..len], b"(e")?;
    }
    Ok(())
}

#[test]
fn deepest(rt: HostRuntime) -> Result<(), Fail> {
    let mut tree = element(rt.alloc())?;
    check_size(&rt, counts(&tree), (2, 1));
    let path = [0; 257];
    deepen(rt.alloc(), &mut tree, &path)?;
    check_size(&rt, counts(&tree), (257, 256));
    let answer = insert(rt.alloc(), &mut tree, &path, b"(e");
    check_answer(&rt, answer, Err(TreeError::TooDeep));
    check_size(&rt, counts(&tree), (257, 256));
    Ok(())
}
