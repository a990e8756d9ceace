// A store that is laid down byte by byte.
use nx_lists::NoMemory;
use std::alloc::Global;

/// How many bytes a page has.
pub const PAGE: usize = 8_192;

// The beginning of each page, and a letter that stands so often behind it. K is 16.
//
// The document `t` is `#doc` over `r`, whose record is the first one of page 2. Its attribute `x` stands before what two other records
// have, and a text behind it: the second record of page 2 has an attribute `y` and an element `e` over the text of the second record of page 3,
// and the first record of page 3 has a text of 1,025 letters, which stand in page 4. The document `u` is the third record of page 3. The pages 5 and 6 are free.
const PAGES: [(&[u8], u8, usize); 7] = [
    (
        b"NATIXST1\0\x02\0\x10\02\0\x04\0\0\x01\0\0\0\0\x07\0\0\0\x05\0\0\0\x02\0\0\0\0\0\0\0\0\0\0\0\x01\0\0\0\0\0\0\0-",
        b'x',
        0,
    ),
    (
        b"\x02\0\0-\0\0\0\0\0\0\0\x02\0\x01t\0\0\0\x02\0\0\0\0\0\x08\0\x01u\0\0\0\x03\0\x02\0\0\0\x02\0\0\0\x01\0\x01r\0\x05#text\x01",
        b'x',
        0,
    ),
    (
        b"\x01\0\0\x02\0\0\0\0\0\x10\0`\0p\0@\x01\0\0\x01\0\0\0\x05\0\0\0\x02\0\0\0\0\x01\0\0\0\0\0\0\x01\x02\0\0\x01\0\0\0\x03r\0\0\0\0\0\0\0\x03\0\0\x01\0\x01\0\0x1\0\0\0\0\0\0\x06\0\0\0\0\0\0\x02\x04\0\0\0\0\x03\0\0end\0\0\0\0\0\0\0\0\x02\0\x01\0\x02\0\0\0\x03\0\0\0\x01\x01\0\0\x02\0\0\0\x03\0\0\0\x01\0\0\0\0\x03\0\0\x01\0\x01\0\0y2\0\0\0\0\0\0\x02\0\0\x01\0\0\0\x01e\0\0\0\0\0\0\0\x06\0\0\0\0\0\0\x01\0\0\0\x03\0\x01\0\x01",
        b'x',
        0,
    ),
    (
        b"\x01\0\0\x03\0\0\0\0\0\x14\0 \04\0 \0T\0(\x01\0\0\x01\0\0\0\x01\0\0\0\0\0\0\0\0\x04\x01\0\0\0\x08\0\0\0\0\0\x04\0\0\x04\x01\x01\0\0\x01\0\0\0\x01\0\0\0\0\0\0\0\0\x04\0\0\0\0\x02\0\0hi\0\0\0\0\0\0\x01\0\0\x01\0\0\0\x02\0\0\0\0\0\0\0\0\x01\0\0\0\0\0\0\x01\x02\0\0\x01\0\0\0\0a",
        b'x',
        0,
    ),
    (b"\x02\0\x04\x01\0\0\0\0", b'z', 1_025),
    (b"\0\0\0\0\0\0\0\x06", b'x', 0),
    (b"\0\0\0\0\0\0\0\0", b'x', 0),
];

/// The area of pages of a sound store.
pub fn sound_store(alloc: Global) -> Result<Vec<u8>, NoMemory> {
    let mut pages = Vec::new(alloc);
    for (bytes, letter, letters) in PAGES {
        let behind = Vec::from_elem(alloc, letter, letters)?;
        let rest = PAGE.saturating_sub(bytes.len()).saturating_sub(letters);
        let zeros = Vec::from_elem(alloc, 0u8, rest)?;
        pages.extend_from_slice(bytes)?;
        pages.extend_from_slice(behind.as_slice())?;
        pages.extend_from_slice(zeros.as_slice())?;
    }
    Ok(pages)
}
