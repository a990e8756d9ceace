// Documents with nodes that are too heavy.
use crate::bounding::{read, refused};
use std::alloc::{AllocError, Global};
use std::process::Abort;
use std::test::Fail;
use std::thread::Threads;

// At so many slots the words below are too heavy, and nothing else is.
const SLOTS: u32 = 4;

// So many elements beside each other, each over so many texts.
fn groups(text: &mut Vec<u8>, number: u32, texts: u32) -> Result<(), AllocError> {
    for _ in 0..number {
        text.extend_from_slice(b"(e\n")?;
        for _ in 0..texts {
            text.extend_from_slice(b"-text\n")?;
        }
        text.extend_from_slice(b")e\n")?;
    }
    Ok(())
}

// An element of 40 bytes, which weighs 6 slots, and a text of 48 in it, which weighs 7.
fn heavy(text: &mut Vec<u8>) -> Result<(), AllocError> {
    text.extend_from_slice(b"(nnnnnnnnnnnnnnnnnnnnnnnnnnnnnnnnnnnnnnnn\n")?;
    text.extend_from_slice(b"-tttttttttttttttttttttttttttttttttttttttttttttttt\n")?;
    text.extend_from_slice(b")nnnnnnnnnnnnnnnnnnnnnnnnnnnnnnnnnnnnnnnn\n")
}

// By each number of workers the node at the path is the first one that is too heavy, and weighs 6 slots.
fn refuses<R: Threads + Abort + Sync>(
    rt: &R,
    alloc: Global,
    text: &[u8],
    path: &[u32],
) -> Result<(), Fail> {
    let tree = read(alloc, text)?;
    for workers in [1u32, 2, 4, 64] {
        match refused(rt, alloc, &tree, SLOTS, workers.max(1)) {
            Some(found) => {
                assert_eq!(rt; found.0.as_slice(), path, "{workers} workers");
                assert_eq!(rt; found.1, 6);
            }
            None => assert!(rt; false, "{workers} workers refuse nothing"),
        }
    }
    Ok(())
}

// The first of two stands in a row of its own, behind one without.
#[test]
fn the_first_of_two(rt: HostRuntime) -> Result<(), Fail> {
    let mut text = Vec::from_slice(rt.alloc(), b"(r\n")?;
    groups(&mut text, 70, 100)?;
    heavy(&mut text)?;
    groups(&mut text, 70, 100)?;
    heavy(&mut text)?;
    groups(&mut text, 1, 100)?;
    text.extend_from_slice(b")r\n")?;
    refuses(&rt, rt.alloc(), text.as_slice(), &[0, 70])
}
