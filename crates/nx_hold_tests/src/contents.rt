// Contents of nodes, near and far, on both sides of each limit.
use crate::made::made_far;
use crate::stores::{ALL_FREE, Store, place_of};
use nx_lists::NoMemory;
use nx_piece::{Far, Item, PieceTree, Proxy};
use nx_records::{Rid, StoreError};
use nx_tree::{Bytes, Kind, Node};
use std::alloc::Global;
use std::process::Abort;
use std::test::Fail;

const LENGTHS: [u32; 9] = [0, 1, 1_024, 1_025, 8_184, 8_185, 16_368, 16_369, 100_000];

// Bytes that differ from one chain page to the next.
fn bytes_of(alloc: Global, length: u32) -> Result<Bytes, NoMemory> {
    let mut bytes = Bytes::new(alloc);
    for index in 0..length {
        bytes.push((index % 251) as u8)?;
    }
    Ok(bytes)
}

fn check_bytes(rt: &impl Abort, found: &[u8], expected: &[u8]) {
    assert_eq!(rt; found, expected);
}

// The content of the text has so many of them.
fn check_content(
    rt: &impl Abort,
    store: &mut Store,
    text: &PieceTree,
    length: u32,
) -> Result<(), Fail> {
    let found = store.content(text)?;
    let expected = bytes_of(store.alloc(), length)?;
    check_bytes(rt, found.as_slice(), expected.as_slice());
    Ok(())
}

// A text of so many bytes, as a piece has it.
fn held(rt: &impl Abort, store: &mut Store, length: u32) -> Result<PieceTree, StoreError> {
    let alloc = store.alloc();
    let Ok(content) = bytes_of(alloc, length) else {
        return Err(StoreError::Memory);
    };
    assert!(rt; content.len() <= 1_048_576);
    let node = Node {
        kind: Kind::Text,
        name: Bytes::new(alloc),
        content,
    };
    store.hold(node)
}

// The list of a text that has one.
fn far_of(rt: &impl Abort, text: &PieceTree) -> Far {
    let Some(far) = text.far else {
        panic!(rt; "a long content is near");
    };
    assert!(rt; text.node.content.is_empty());
    far
}

// The text below the root.
fn text_below<'a>(rt: &impl Abort, roots: &'a [PieceTree]) -> &'a PieceTree {
    let [root] = roots else {
        panic!(rt; "there is not one root");
    };
    let [Item::Tree(text)] = root.children.as_slice() else {
        panic!(rt; "there is not one text");
    };
    text
}

// The text of the piece at the place names this list.
fn check_named(rt: &impl Abort, store: &mut Store, place: Rid, far: Far) -> Result<(), StoreError> {
    let piece = store.read(place)?;
    let text = text_below(rt, piece.body.roots.as_slice());
    assert_eq!(rt; far_of(rt, text), far);
    Ok(())
}

// A piece whose text names this list is added.
fn add(rt: &impl Abort, store: &mut Store, far: Far) -> Result<Proxy, StoreError> {
    match made_far(rt, store.alloc(), far) {
        Ok(piece) => store.add(&piece),
        Err(_) => Err(StoreError::Memory),
    }
}

// Takes the piece at the place away, whose text names this list.
fn take(rt: &impl Abort, store: &mut Store, place: Rid, far: Far) -> Result<(), StoreError> {
    let taken = store.take(place)?;
    let [found] = taken.fars.as_slice() else {
        panic!(rt; "there is not one list");
    };
    assert_eq!(rt; *found, far);
    assert_eq!(rt; taken.nodes, 2);
    Ok(())
}

// Puts the content into a piece and takes both away again, and looks at the free pages each time.
fn put_and_take(
    rt: &impl Abort,
    store: &mut Store,
    text: &PieceTree,
    far: Far,
) -> Result<(), Fail> {
    let place = place_of(add(rt, store, far)?);
    store.commit_with(
        rt,
        (ALL_FREE - 1).saturating_sub(far.length.div_ceil(8_184)),
    )?;
    check_named(rt, store, place, far)?;
    check_content(rt, store, text, far.length)?;
    take(rt, store, place, far)?;
    store.free(text)?;
    store.commit_with(rt, ALL_FREE)
}

// A content of that length comes back, from a list where it is long.
fn check_length(rt: &impl Abort, store: &mut Store, length: u32) -> Result<(), Fail> {
    let text = held(rt, store, length)?;
    check_content(rt, store, &text, length)?;
    if length <= 1_024 {
        assert!(rt; text.far.is_none());
        return Ok(());
    }
    let far = far_of(rt, &text);
    assert_eq!(rt; far.length, length);
    put_and_take(rt, store, &text, far)
}

#[test]
fn contents_come_back(rt: HostRuntime) -> Result<(), Fail> {
    let mut store = Store::create(rt.alloc())?;
    for length in LENGTHS {
        check_length(&rt, &mut store, length)?;
    }
    Ok(())
}
