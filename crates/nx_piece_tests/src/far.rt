// Records with a content that stands elsewhere, and with a long one that they hold.
ghost use Rattle.nx_piece.specs.Valid.{IsValid};

use crate::reads::{check_bytes, check_count, check_is, check_sizes, encoded, sizes, stored};
use nx_lists::NoMemory;
use nx_piece::{Far, PieceTree, Stored, StoredView, decode, view};
use std::alloc::Global;
use std::process::Abort;
use std::test::Fail;

// A text of 1,025 bytes whose list begins at page 5.
const FAR: [u8; 32] = [
    1, 0, 0, 1, 0, 0, 0, 1, 0, 0, 0, 0, 0, 0, 0, 0, //
    4, 1, 0, 0, 0, 8, 0, 0, 0, 0, 0, 5, 0, 0, 4, 1,
];

// Whether a record of these bytes holds a piece, copied or seen.
fn is_piece(rt: &impl Abort, alloc: Global, bytes: &[u8]) -> Result<bool, NoMemory> {
    let found = is_copied(alloc, bytes)?;
    let seen = is_seen(alloc, bytes)?;
    check_is(rt, seen, found);
    Ok(found)
}

fn is_copied(alloc: Global, bytes: &[u8]) -> Result<bool, NoMemory> {
    let stored = decode(alloc, bytes)?;
    Ok(stored.is_some())
}

fn is_seen(alloc: Global, bytes: &[u8]) -> Result<bool, NoMemory> {
    let stored = view(alloc, bytes)?;
    Ok(stored.is_some())
}

// The one root of a piece that has its proxies in its record.
fn root<'a>(rt: &impl Abort, stored: &'a Stored) -> &'a PieceTree {
    let Stored::Inline(piece) = stored else {
        panic!(rt; "the proxies stand in a chain");
    };
    let [root] = piece.body.roots.as_slice() else {
        panic!(rt; "there is not one root");
    };
    root
}

fn check_far(rt: &impl Abort, root: &PieceTree) {
    check_is(rt, root.node.content.is_empty(), true);
    let far = Far {
        first: 5,
        length: 1_025,
    };
    check_place(rt, root.far, far);
}

fn check_place(rt: &impl Abort, found: Option<Far>, far: Far) {
    assert_eq!(rt; found, Some(far));
}

fn seen_weight(rt: &impl Abort, alloc: Global, bytes: &[u8]) -> Result<u32, NoMemory> {
    let Some(StoredView::Inline(piece)) = view(alloc, bytes)? else {
        panic!(rt; "no piece was seen");
    };
    Ok(piece.body.weight())
}

#[test]
fn far_content(rt: HostRuntime) -> Result<(), Fail> {
    let Some(stored) = stored(rt.alloc(), &FAR)? else {
        panic!(rt; "no piece was read");
    };
    check_stored(&rt, rt.alloc(), &stored)?;
    check_seen(&rt, rt.alloc())?;
    Ok(())
}

fn check_stored(rt: &impl Abort, alloc: Global, stored: &Stored) -> Result<(), NoMemory>
    requires { IsValid stored.now }
{
    let again = encoded(alloc, stored)?;
    check_bytes(rt, again.as_slice(), &FAR);
    check_sizes(rt, sizes(stored), (2, 2));
    check_far(rt, root(rt, stored));
    Ok(())
}

fn check_seen(rt: &impl Abort, alloc: Global) -> Result<(), NoMemory> {
    let weight = seen_weight(rt, alloc, &FAR)?;
    check_count(rt, weight, 2);
    Ok(())
}

// The record with these bytes from a place on holds a piece, or holds none.
fn check_item(
    rt: &impl Abort,
    alloc: Global,
    place: usize,
    bytes: &[u8],
    expected: bool,
) -> Result<(), NoMemory> {
    let mut changed = FAR;
    for (offset, byte) in bytes.iter().enumerate() {
        if let Some(found) = changed.get_mut(place.saturating_add(offset)) {
            *found = *byte;
        }
    }
    let found = is_piece(rt, alloc, &changed)?;
    check_is(rt, found, expected);
    Ok(())
}

// The lengths that a content elsewhere may have, and the other bytes of its item.
#[test]
fn far_items(rt: HostRuntime) -> Result<(), Fail> {
    check_item(&rt, rt.alloc(), 31, &[0], false)?;
    check_item(&rt, rt.alloc(), 28, &[0, 16, 0, 0], true)?;
    check_item(&rt, rt.alloc(), 28, &[0, 16, 0, 1], false)?;
    check_item(&rt, rt.alloc(), 17, &[2], false)?;
    check_item(&rt, rt.alloc(), 21, &[7], false)?;
    Ok(())
}

// A text of so many bytes that its record holds.
fn near(alloc: Global, count: u16) -> Result<Vec<u8>, NoMemory> {
    let mut bytes = Vec::new(alloc);
    push_near(&mut bytes, count)?;
    Ok(bytes)
}

fn push_near(bytes: &mut Vec<u8>, count: u16) -> Result<(), NoMemory> {
    let [c1, c0] = count.to_be_bytes();
    bytes.extend_from_slice(&[1, 0, 0, 1, 0, 0, 0, 1, 0, 0, 0, 0, 0, 0, 0, 0])?;
    bytes.extend_from_slice(&[4, 0, 0, 0, c1, c0, 0, 0])?;
    for _ in 0..count {
        bytes.push(b'x')?;
    }
    Ok(())
}

// The text of so many bytes weighs so much, and takes so many slots.
fn check_near(
    rt: &impl Abort,
    alloc: Global,
    count: u16,
    expected: (u32, u32),
) -> Result<(), NoMemory> {
    let bytes = near(alloc, count)?;
    let Some(stored) = stored(alloc, bytes.as_slice())? else {
        panic!(rt; "no piece was read");
    };
    check_is(rt, matches!(&stored, Stored::Inline(_)), true);
    check_sizes(rt, sizes(&stored), expected);
    Ok(())
}

// A content of more than 1,024 bytes weighs as one that stands elsewhere, also where it stands in the record and takes
// its own slots.
#[test]
fn near_content(rt: HostRuntime) -> Result<(), Fail> {
    for (count, slots, weighs) in [(1_024, 129, 129), (1_032, 130, 2), (2_040, 256, 2)] {
        check_near(&rt, rt.alloc(), count, (weighs, slots))?;
    }
    let bytes = near(rt.alloc(), 2_048)?;
    let found = is_piece(&rt, rt.alloc(), bytes.as_slice())?;
    check_is(&rt, found, false);
    Ok(())
}
