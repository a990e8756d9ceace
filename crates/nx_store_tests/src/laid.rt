// Stores that are laid down byte by byte, one of format 1 among them.
use nx_memory::Image;
use nx_tree::{Bytes, NoMemory};
use std::alloc::Global;

// How large a page is.
const PAGE: usize = 8_192;

// A page: bytes at its beginning, and a letter that stands so often behind them.
#[derive(Clone, Copy, Debug)]
struct LaidPage {
    bytes: &'static [u8],
    letter: u8,
    letters: usize,
}

// A store of format 1 with K 256. Its document `t` has a text of 2,040 letters in an element `r`, in a record of its own;
// in `u` there are the text `hi` and one of 1,500 letters, in the record of all.
const OLD: [LaidPage; 4] = [
    // The header: the settings, 4 pages, none free, no group, and the catalog's page and length.
    LaidPage {
        bytes: b"NATIXST1\0\x01\x01\0\0\x32\0\x40\x01\0\0\0\0\0\0\x04\0\0\0\0\0\0\0\0\0\0\0\0\0\0\0\0\0\0\0\x01\0\0\0\0\0\0\0\x22",
        letter: b'x',
        letters: 0,
    },
    // The catalog: documents of three and of four nodes, from the pages 2 and 3 on, and no rule.
    LaidPage {
        bytes: b"\x02\0\0\x22\0\0\0\0\0\0\0\x02\0\x01t\0\0\0\x02\0\0\0\0\0\x03\0\x01u\0\0\0\x03\0\0\0\0\0\x04\0\0\0\0",
        letter: b'x',
        letters: 0,
    },
    // Two records: the root, the element, a run of one proxy and this proxy; and the text.
    LaidPage {
        bytes: b"\x01\0\0\x02\0\0\0\0\0\x10\0\x38\0\x48\x08\x10\x01\0\0\x01\0\0\0\x03\0\0\0\x01\0\0\0\0\x01\0\0\0\0\0\0\x01\x02\0\0\x01\0\0\0\x01r\0\0\0\0\0\0\0\x06\0\0\0\0\0\0\x01\0\0\0\x02\0\x01\0\x01\x01\0\0\x01\0\0\0\x01\0\0\0\0\0\0\0\0\x04\0\0\0\x07\xf8\0\0",
        letter: b'x',
        letters: 2_040,
    },
    // One record: the root, the element and both texts.
    LaidPage {
        bytes: b"\x01\0\0\x01\0\0\0\0\0\x10\x06\x20\0\0\0\0\x01\0\0\x01\0\0\0\x04\0\0\0\0\0\0\0\0\x01\0\0\0\0\0\0\x01\x02\0\0\x01\0\0\0\x02r\0\0\0\0\0\0\0\x04\0\0\0\0\x02\0\0hi\0\0\0\0\0\0\x04\0\0\0\x05\xdc\0\0",
        letter: b'x',
        letters: 1_500,
    },
];

fn push_page(alloc: Global, pages: &mut Vec<u8>, page: LaidPage) -> Result<(), NoMemory> {
    let letters = Vec::from_elem(alloc, page.letter, page.letters)?;
    let rest = PAGE
        .saturating_sub(page.bytes.len())
        .saturating_sub(page.letters);
    let zeros = Vec::from_elem(alloc, 0u8, rest)?;
    pages.extend_from_slice(page.bytes)?;
    pages.extend_from_slice(letters.as_slice())?;
    pages.extend_from_slice(zeros.as_slice())?;
    Ok(())
}

fn laid(alloc: Global, laid: &[LaidPage]) -> Result<Image, NoMemory> {
    let mut pages = Vec::new(alloc);
    for page in laid {
        push_page(alloc, &mut pages, *page)?;
    }
    Ok(Image {
        pages: Bytes::from_vec(pages),
        log: Bytes::new(alloc),
    })
}

/// A store of format 1, whose documents `t` and `u` have texts of 2,040 and of 1,500 letters in their records.
pub fn old_store(alloc: Global) -> Result<Image, NoMemory> {
    laid(alloc, &OLD)
}
