// Documents whose nodes are shared out in one way each.
use crate::agreeing::agree;
use std::alloc::{AllocError, Global};
use std::test::Fail;

// So many elements beside each other, each over so many texts.
fn groups(text: &mut Vec<u8>, number: u32, texts: u32) -> Result<(), AllocError> {
    for _ in 0..number {
        text.extend_from_slice(b"(e\n")?;
        texts_of(text, texts)?;
        text.extend_from_slice(b")e\n")?;
    }
    Ok(())
}

fn texts_of(text: &mut Vec<u8>, number: u32) -> Result<(), AllocError> {
    for _ in 0..number {
        text.extend_from_slice(b"-some text\n")?;
    }
    Ok(())
}

fn begun(alloc: Global) -> Result<Vec<u8>, AllocError> {
    Vec::from_slice(alloc, b"(r\n")
}

fn end(text: &mut Vec<u8>) -> Result<(), AllocError> {
    text.extend_from_slice(b")r\n")
}

// A root element over texts alone, and over elements with a few texts each: 2,048 children or more.
#[test]
fn a_wide_root(rt: HostRuntime) -> Result<(), Fail> {
    let mut flat = begun(rt.alloc())?;
    texts_of(&mut flat, 3_000)?;
    end(&mut flat)?;
    agree(&rt, rt.alloc(), flat.as_slice())?;
    let mut records = begun(rt.alloc())?;
    groups(&mut records, 2_048, 1)?;
    end(&mut records)?;
    agree(&rt, rt.alloc(), records.as_slice())
}

// Elements one within the other, each with a text before and behind it, over 60 elements of 100 texts.
#[test]
fn elements_that_wrap(rt: HostRuntime) -> Result<(), Fail> {
    for beside in [0u32, 1] {
        let mut text = begun(rt.alloc())?;
        for _ in 0..12u32 {
            texts_of(&mut text, beside)?;
            text.extend_from_slice(b"(wrap\n")?;
        }
        groups(&mut text, 60, 100)?;
        for _ in 0..12u32 {
            text.extend_from_slice(b")wrap\n")?;
            texts_of(&mut text, beside)?;
        }
        end(&mut text)?;
        agree(&rt, rt.alloc(), text.as_slice())?;
    }
    Ok(())
}
