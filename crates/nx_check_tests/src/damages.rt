// Single damages of a store, with the verdicts that the rules ask for.
use crate::laid::{PAGE, sound_store};
use nx_check::{CheckError, PageRule, Verdict, check};
use nx_lists::NoMemory;
use nx_memory::{Image, QuietHost};
use nx_tree::Bytes;
use std::alloc::Global;
use std::process::Abort;
use std::test::Fail;

// A page, an offset there, and bytes that stand there in the place of others.
type Patch = (usize, usize, &'static [u8]);

// What is found where these patches were laid over the store.
#[derive(Clone, Copy)]
enum Found {
    Sound,
    NotAStore,
    Wrong(u32, PageRule),
}

use Found::{NotAStore, Sound, Wrong};
use PageRule::{
    Catalog, Chain, Document, Form, Free, Header, Missing, Nodes, Roots, Slotted, Twice, Unused,
    Weight,
};

// A damage, in words, and what is found then.
type Damage = (&'static str, &'static [Patch], Found);

const HEADERS: [Damage; 28] = [
    ("format 9", &[(0, 8, b"\0\x09")], Wrong(0, Header)),
    ("format 0", &[(0, 8, b"\0\0")], Wrong(0, Header)),
    ("format 1", &[(0, 8, b"\0\x01")], Sound),
    ("K 0", &[(0, 10, b"\0\0")], Wrong(0, Header)),
    ("K 256", &[(0, 10, b"\x01\0")], Sound),
    ("K 257", &[(0, 10, b"\x01\x01")], Wrong(0, Header)),
    ("target 100", &[(0, 12, b"\0d")], Sound),
    ("target 101", &[(0, 12, b"\0e")], Wrong(0, Header)),
    ("tolerance 256", &[(0, 14, b"\x01\0")], Sound),
    ("tolerance 257", &[(0, 14, b"\x01\x01")], Wrong(0, Header)),
    ("limit 63", &[(0, 16, b"\0\0\0?")], Wrong(0, Header)),
    ("limit 64", &[(0, 16, b"\0\0\0@")], Sound),
    ("limit 16,777,216", &[(0, 16, b"\x01\0\0\0")], Sound),
    (
        "limit 16,777,217",
        &[(0, 16, b"\x01\0\0\x01")],
        Wrong(0, Header),
    ),
    ("1 page", &[(0, 20, b"\0\0\0\x01")], Wrong(0, Header)),
    (
        "257 pages, past the limit",
        &[(0, 20, b"\0\0\x01\x01")],
        Wrong(0, Header),
    ),
    (
        "8 pages, of which the last is missing",
        &[(0, 20, b"\0\0\0\x08")],
        Wrong(7, Unused),
    ),
    (
        "6 pages, and page 6 is free",
        &[(0, 20, b"\0\0\0\x06")],
        Wrong(6, Free),
    ),
    (
        "room in a chain page",
        &[(0, 28, b"\0\0\0\x01")],
        Wrong(0, Header),
    ),
    (
        "room in a free page",
        &[(0, 28, b"\0\0\0\x05")],
        Wrong(0, Header),
    ),
    ("room in no page", &[(0, 28, b"\0\0\0c")], Wrong(0, Header)),
    (
        "room in another slotted page",
        &[(0, 28, b"\0\0\0\x03")],
        Sound,
    ),
    ("no room page", &[(0, 28, b"\0\0\0\0")], Sound),
    (
        "another number of the last group",
        &[(0, 32, b"\0\0\0\0\0\0\0M")],
        Sound,
    ),
    (
        "a byte behind the fields",
        &[(0, 52, b"\x01")],
        Wrong(0, Header),
    ),
    (
        "the last byte of the header",
        &[(0, 8191, b"\x01")],
        Wrong(0, Header),
    ),
    (
        "a catalog of 7 bytes",
        &[(0, 44, b"\0\0\0\0\0\0\0\x07")],
        Wrong(0, Header),
    ),
    ("no mark", &[(0, 0, b"X")], NotAStore),
];

const FREE_LISTS: [Damage; 16] = [
    (
        "the free pages in the other order",
        &[
            (0, 24, b"\0\0\0\x06"),
            (6, 4, b"\0\0\0\x05"),
            (5, 4, b"\0\0\0\0"),
        ],
        Sound,
    ),
    (
        "the first free page is missing",
        &[(0, 24, b"\0\0\0c")],
        Wrong(0, Free),
    ),
    (
        "the first free page is slotted",
        &[(0, 24, b"\0\0\0\x02")],
        Wrong(2, Free),
    ),
    (
        "the first free page is left out",
        &[(0, 24, b"\0\0\0\x06")],
        Wrong(5, Unused),
    ),
    ("no free page", &[(0, 24, b"\0\0\0\0")], Wrong(5, Unused)),
    ("another kind", &[(5, 0, b"\x01")], Wrong(5, Free)),
    ("a byte beside the kind", &[(5, 1, b"\x01")], Wrong(5, Free)),
    (
        "itself as the next",
        &[(5, 4, b"\0\0\0\x05")],
        Wrong(5, Free),
    ),
    (
        "a missing page as the next",
        &[(5, 4, b"\0\0\0c")],
        Wrong(5, Free),
    ),
    (
        "a chain page as the next",
        &[(5, 4, b"\0\0\0\x04")],
        Wrong(4, Free),
    ),
    ("it ends early", &[(5, 4, b"\0\0\0\0")], Wrong(6, Unused)),
    ("a byte behind", &[(5, 8, b"\x01")], Wrong(5, Free)),
    ("the last byte", &[(5, 8191, b"\x01")], Wrong(5, Free)),
    (
        "the first as the next of the last",
        &[(6, 4, b"\0\0\0\x05")],
        Wrong(5, Free),
    ),
    ("a byte of the last", &[(6, 100, b"\x07")], Wrong(6, Free)),
    (
        "a missing page behind the last",
        &[(6, 4, b"\0\0\0\x07")],
        Wrong(6, Free),
    ),
];

const CATALOGS: [Damage; 26] = [
    (
        "the catalog in no page",
        &[(0, 40, b"\0\0\0\x09")],
        Wrong(0, Chain),
    ),
    (
        "in a slotted page",
        &[(0, 40, b"\0\0\0\x02")],
        Wrong(2, Chain),
    ),
    (
        "in a list of another length",
        &[(0, 40, b"\0\0\0\x04")],
        Wrong(4, Chain),
    ),
    ("in page 0", &[(0, 40, b"\0\0\0\0")], Wrong(0, Chain)),
    ("46 bytes", &[(0, 44, b"\0\0\0\0\0\0\0.")], Wrong(1, Chain)),
    ("44 bytes", &[(0, 44, b"\0\0\0\0\0\0\0,")], Wrong(1, Chain)),
    (
        "9,000 bytes",
        &[(0, 44, b"\0\0\0\0\0\0#(")],
        Wrong(1, Chain),
    ),
    ("another kind of page", &[(1, 0, b"\x03")], Wrong(1, Chain)),
    (
        "a byte beside the kind",
        &[(1, 1, b"\x01")],
        Wrong(1, Chain),
    ),
    ("fewer bytes", &[(1, 2, b"\0,")], Wrong(1, Chain)),
    ("a next page", &[(1, 4, b"\0\0\0\x04")], Wrong(1, Chain)),
    ("a byte behind", &[(1, 53, b"\x01")], Wrong(1, Chain)),
    ("3 documents", &[(1, 8, b"\0\0\0\x03")], Wrong(1, Catalog)),
    ("1 document", &[(1, 8, b"\0\0\0\x01")], Wrong(1, Catalog)),
    ("names out of order", &[(1, 14, b"v")], Wrong(1, Catalog)),
    ("a name twice", &[(1, 14, b"u")], Wrong(1, Catalog)),
    (
        "a name that begins with a dash",
        &[(1, 14, b"-")],
        Wrong(1, Catalog),
    ),
    ("a space as a name", &[(1, 14, b" ")], Wrong(1, Catalog)),
    ("another name", &[(1, 14, b"s")], Sound),
    ("no name", &[(1, 12, b"\0\0")], Wrong(1, Catalog)),
    ("no rule", &[(1, 38, b"\0\0\0\0")], Wrong(1, Catalog)),
    ("a parent that is none", &[(1, 44, b"/")], Wrong(1, Catalog)),
    ("a child that is none", &[(1, 51, b"u")], Wrong(1, Catalog)),
    ("a rule of no entry", &[(1, 52, b"\0")], Wrong(1, Catalog)),
    (
        "a rule of an entry 3",
        &[(1, 52, b"\x03")],
        Wrong(1, Catalog),
    ),
    ("another entry", &[(1, 52, b"\x02")], Sound),
];

const ROOTS_OF_DOCUMENTS: [Damage; 15] = [
    ("in no page", &[(1, 15, b"\0\0\0c")], Wrong(0, Missing)),
    (
        "in the catalog",
        &[(1, 15, b"\0\0\0\x01")],
        Wrong(1, Slotted),
    ),
    ("in the header", &[(1, 15, b"\0\0\0\0")], Wrong(0, Slotted)),
    (
        "in a free page",
        &[(1, 15, b"\0\0\0\x05")],
        Wrong(5, Slotted),
    ),
    ("in no slot", &[(1, 19, b"\0\x02")], Wrong(0, Missing)),
    ("two roots", &[(1, 19, b"\0\x01")], Wrong(2, Document)),
    (
        "those of the other document",
        &[(1, 15, b"\0\0\0\x03\0\x02")],
        Wrong(3, Nodes),
    ),
    ("9 nodes", &[(1, 21, b"\0\0\0\x09")], Wrong(2, Nodes)),
    ("7 nodes", &[(1, 21, b"\0\0\0\x07")], Wrong(2, Nodes)),
    (
        "3 nodes of the other",
        &[(1, 34, b"\0\0\0\x03")],
        Wrong(3, Nodes),
    ),
    (
        "too many nodes",
        &[(1, 34, b"\0\x08\0\x01")],
        Wrong(3, Nodes),
    ),
    (
        "the record of the first document",
        &[(1, 28, b"\0\0\0\x02\0\0")],
        Wrong(2, Twice),
    ),
    ("a record below", &[(1, 32, b"\0\x01")], Wrong(3, Twice)),
    (
        "in no slot, of the other",
        &[(1, 32, b"\0\x03")],
        Wrong(0, Missing),
    ),
    (
        "the other document left out",
        &[
            (0, 44, b"\0\0\0\0\0\0\0 "),
            (1, 2, b"\0 "),
            (1, 8, b"\0\0\0\x01"),
            (
                1,
                25,
                b"\0\0\0\x01\0\x01r\0\x05#text\x01\0\0\0\0\0\0\0\0\0\0\0\0\0",
            ),
        ],
        Wrong(3, Unused),
    ),
];

const SLOTTED_PAGES: [Damage; 12] = [
    (
        "the room page is none",
        &[(2, 0, b"\x02")],
        Wrong(0, Header),
    ),
    ("1 slot", &[(2, 2, b"\0\x01")], Wrong(2, Missing)),
    (
        "3 slots, into the first record",
        &[(2, 2, b"\0\x03")],
        Wrong(0, Header),
    ),
    ("another kind", &[(3, 0, b"\x02")], Wrong(3, Slotted)),
    (
        "a byte beside the kind",
        &[(3, 1, b"\x01")],
        Wrong(3, Slotted),
    ),
    (
        "a byte behind the number",
        &[(3, 4, b"\x01")],
        Wrong(3, Slotted),
    ),
    (
        "records that overlap",
        &[(3, 8, b"\0\x15")],
        Wrong(3, Slotted),
    ),
    ("an empty slot", &[(3, 8, b"\0\0\0\0")], Wrong(2, Missing)),
    (
        "an empty last slot",
        &[(3, 16, b"\0\0\0\0")],
        Wrong(3, Slotted),
    ),
    (
        "a record that is cut",
        &[(3, 10, b"\0\x1f")],
        Wrong(3, Form),
    ),
    (
        "a record past the page",
        &[(3, 10, b"\x1f\xfe")],
        Wrong(3, Slotted),
    ),
    ("a slot of no bytes", &[(3, 10, b"\0\0")], Wrong(3, Slotted)),
];

const FORMS: [Damage; 34] = [
    ("form 3", &[(2, 16, b"\x03")], Wrong(2, Form)),
    (
        "the chained form where all fits",
        &[(2, 16, b"\x02")],
        Wrong(2, Form),
    ),
    (
        "a byte beside the form",
        &[(2, 17, b"\x01")],
        Wrong(2, Form),
    ),
    ("2 roots", &[(2, 18, b"\0\x02")], Wrong(2, Form)),
    ("no root", &[(2, 18, b"\0\0")], Wrong(2, Form)),
    ("6 items", &[(2, 20, b"\0\0\0\x06")], Wrong(2, Form)),
    ("1 proxy", &[(2, 24, b"\0\0\0\x01")], Wrong(2, Form)),
    ("a chain", &[(2, 28, b"\0\0\0\x01")], Wrong(2, Form)),
    ("kind 0", &[(2, 32, b"\0")], Wrong(2, Form)),
    ("a run as the root", &[(2, 32, b"\x06")], Wrong(2, Form)),
    (
        "a far content of no bytes",
        &[(2, 33, b"\x01")],
        Wrong(2, Form),
    ),
    ("a far byte of 2", &[(2, 33, b"\x02")], Wrong(2, Form)),
    ("2 child items", &[(2, 38, b"\0\x02")], Wrong(2, Form)),
    ("no child item", &[(2, 38, b"\0\0")], Wrong(2, Form)),
    (
        "a name that is left out",
        &[(2, 42, b"\0\0")],
        Wrong(2, Form),
    ),
    (
        "a byte behind the name",
        &[(2, 50, b"\x01")],
        Wrong(2, Form),
    ),
    ("kind 7", &[(2, 72, b"\x07")], Wrong(2, Form)),
    ("a byte beside the run", &[(2, 73, b"\x01")], Wrong(2, Form)),
    ("a run of 1", &[(2, 76, b"\0\0\0\x01")], Wrong(2, Form)),
    ("a run of 3", &[(2, 76, b"\0\0\0\x03")], Wrong(2, Form)),
    ("a run of none", &[(2, 76, b"\0\0\0\0")], Wrong(2, Form)),
    ("a proxy of no root", &[(2, 102, b"\0\0")], Wrong(2, Form)),
    (
        "a proxy of 257 roots",
        &[(2, 102, b"\x01\x01")],
        Wrong(2, Form),
    ),
    ("form 0", &[(2, 112, b"\0")], Wrong(2, Form)),
    ("1 of 2 roots", &[(2, 114, b"\0\x01")], Wrong(2, Form)),
    ("3 of 2 roots", &[(2, 114, b"\0\x03")], Wrong(2, Form)),
    ("a run of 2", &[(2, 164, b"\0\0\0\x02")], Wrong(2, Form)),
    ("the chained form", &[(3, 20, b"\x02")], Wrong(3, Form)),
    (
        "a far content of 2 bytes",
        &[(3, 69, b"\x01")],
        Wrong(3, Form),
    ),
    (
        "a child item that is missing",
        &[(3, 74, b"\0\x01")],
        Wrong(3, Form),
    ),
    (
        "a byte behind the content",
        &[(3, 78, b"\x01")],
        Wrong(3, Form),
    ),
    (
        "a far content of 1,024 bytes",
        &[(3, 48, b"\0\0\x04\0")],
        Wrong(3, Form),
    ),
    (
        "a far content of 1,048,577 bytes",
        &[(3, 48, b"\0\x10\0\x01")],
        Wrong(3, Form),
    ),
    ("no child of the root", &[(3, 106, b"\0\0")], Wrong(3, Form)),
];

const PROXIES: [Damage; 17] = [
    ("to no page", &[(2, 96, b"\0\0\0c")], Wrong(2, Missing)),
    (
        "to the catalog",
        &[(2, 96, b"\0\0\0\x01")],
        Wrong(1, Slotted),
    ),
    ("to a list", &[(2, 96, b"\0\0\0\x04")], Wrong(4, Slotted)),
    ("to itself", &[(2, 100, b"\0\0")], Wrong(2, Twice)),
    ("to no slot", &[(2, 100, b"\0\x02")], Wrong(2, Missing)),
    ("of 1 root", &[(2, 102, b"\0\x01")], Wrong(2, Roots)),
    ("of 3 roots", &[(2, 102, b"\0\x03")], Wrong(2, Roots)),
    (
        "twice to one record",
        &[(2, 104, b"\0\0\0\x02\0\x01")],
        Wrong(2, Twice),
    ),
    ("of 2 roots", &[(2, 110, b"\0\x02")], Wrong(3, Roots)),
    (
        "to a record below the one before",
        &[(2, 108, b"\0\x01")],
        Wrong(3, Twice),
    ),
    (
        "to the root of another document",
        &[(2, 108, b"\0\x02")],
        Wrong(3, Document),
    ),
    (
        "to no slot of page 3",
        &[(2, 108, b"\0\x03")],
        Wrong(2, Missing),
    ),
    (
        "twice to the far text",
        &[(2, 96, b"\0\0\0\x03\0\0\0\x01")],
        Wrong(3, Twice),
    ),
    (
        "of 2 roots, from below",
        &[(2, 174, b"\0\x02")],
        Wrong(3, Roots),
    ),
    (
        "to the far text, from below",
        &[(2, 172, b"\0\0")],
        Wrong(3, Twice),
    ),
    (
        "to the record above",
        &[(2, 168, b"\0\0\0\x02\0\0")],
        Wrong(2, Twice),
    ),
    (
        "to no slot, from below",
        &[(2, 172, b"\0\x05")],
        Wrong(2, Missing),
    ),
];

const NODES: [Damage; 37] = [
    (
        "no root of a document",
        &[(2, 32, b"\x02")],
        Wrong(2, Document),
    ),
    (
        "an instruction with children",
        &[(2, 40, b"\x05")],
        Wrong(2, Document),
    ),
    (
        "a text with a name",
        &[(2, 40, b"\x04")],
        Wrong(2, Document),
    ),
    (
        "an attribute below the root",
        &[(2, 40, b"\x03")],
        Wrong(2, Document),
    ),
    (
        "a root below the root",
        &[(2, 40, b"\x01")],
        Wrong(2, Document),
    ),
    ("a name of a space", &[(2, 48, b" ")], Wrong(2, Document)),
    ("a name of an at sign", &[(2, 48, b"@")], Wrong(2, Document)),
    ("another name", &[(2, 48, b"s")], Sound),
    (
        "a text with a name before",
        &[(2, 56, b"\x04")],
        Wrong(2, Document),
    ),
    (
        "an instruction before an attribute of another record",
        &[(2, 56, b"\x05")],
        Wrong(2, Document),
    ),
    (
        "an element with a content",
        &[(2, 56, b"\x02")],
        Wrong(2, Document),
    ),
    (
        "the name of an attribute of another record",
        &[(2, 64, b"y")],
        Wrong(2, Document),
    ),
    ("a slash as a name", &[(2, 64, b"/")], Wrong(2, Document)),
    ("another value", &[(2, 65, b"2")], Sound),
    (
        "an attribute without a name",
        &[(2, 80, b"\x03")],
        Wrong(2, Document),
    ),
    (
        "an instruction without a name",
        &[(2, 80, b"\x05")],
        Wrong(2, Document),
    ),
    (
        "an element without a name",
        &[(2, 80, b"\x02")],
        Wrong(2, Document),
    ),
    ("another text", &[(2, 88, b"E")], Sound),
    (
        "an attribute behind an element of another record",
        &[(2, 80, b"\x03\0\0\x03\0\0")],
        Wrong(2, Document),
    ),
    (
        "an element at the end",
        &[(2, 80, b"\x02\0\0\x03\0\0")],
        Sound,
    ),
    (
        "a text with a name, in the second record",
        &[(2, 128, b"\x04")],
        Wrong(2, Document),
    ),
    (
        "the name of an attribute above",
        &[(2, 136, b"x")],
        Wrong(2, Document),
    ),
    (
        "a number sign as a name",
        &[(2, 136, b"#")],
        Wrong(2, Document),
    ),
    (
        "an instruction in the place of an attribute",
        &[(2, 128, b"\x05")],
        Sound,
    ),
    (
        "a text with children",
        &[(2, 144, b"\x04")],
        Wrong(2, Document),
    ),
    (
        "a space as a name, in the second record",
        &[(2, 152, b" ")],
        Wrong(2, Document),
    ),
    (
        "an attribute with a child of another record",
        &[(2, 144, b"\x03")],
        Wrong(3, Document),
    ),
    (
        "an instruction with a child of another record",
        &[(2, 144, b"\x05")],
        Wrong(3, Document),
    ),
    (
        "a root below an element",
        &[(3, 68, b"\x01")],
        Wrong(3, Document),
    ),
    (
        "an element with a content, below",
        &[(3, 68, b"\x02")],
        Wrong(3, Document),
    ),
    ("another text below", &[(3, 76, b"H")], Sound),
    ("a far element", &[(3, 36, b"\x02")], Wrong(3, Document)),
    (
        "a far attribute without a name",
        &[(3, 36, b"\x03")],
        Wrong(3, Document),
    ),
    (
        "no root of the other document",
        &[(3, 100, b"\x02")],
        Wrong(3, Document),
    ),
    ("no element", &[(3, 108, b"\x05")], Wrong(3, Nodes)),
    (
        "a text below the root",
        &[(3, 108, b"\x04")],
        Wrong(3, Document),
    ),
    (
        "a zero byte as a name",
        &[(3, 116, b"\0")],
        Wrong(3, Document),
    ),
];

const LISTS: [Damage; 12] = [
    (
        "a content that stands in its item",
        &[(3, 37, b"\0")],
        Wrong(4, Unused),
    ),
    ("in a free page", &[(3, 44, b"\0\0\0\x05")], Wrong(5, Chain)),
    ("in the catalog", &[(3, 44, b"\0\0\0\x01")], Wrong(1, Chain)),
    ("in no page", &[(3, 44, b"\0\0\0c")], Wrong(3, Chain)),
    ("in page 0", &[(3, 44, b"\0\0\0\0")], Wrong(0, Chain)),
    ("1,026 bytes", &[(3, 48, b"\0\0\x04\x02")], Wrong(4, Chain)),
    ("9,000 bytes", &[(3, 48, b"\0\0#(")], Wrong(4, Chain)),
    ("another kind of page", &[(4, 0, b"\0")], Wrong(4, Chain)),
    ("fewer bytes", &[(4, 2, b"\x04\0")], Wrong(4, Chain)),
    ("a next page", &[(4, 4, b"\0\0\0\x06")], Wrong(4, Chain)),
    ("another content", &[(4, 8, b"A")], Sound),
    ("a byte behind", &[(4, 1033, b"\x01")], Wrong(4, Chain)),
];

const WEIGHTS: [Damage; 3] = [
    ("K 7", &[(0, 10, b"\0\x07")], Sound),
    ("K 6", &[(0, 10, b"\0\x06")], Wrong(2, Weight)),
    ("K 1", &[(0, 10, b"\0\x01")], Wrong(2, Weight)),
];

// What a check finds of these areas.
pub fn verdict_of(
    alloc: Global,
    pages: Vec<u8>,
    log: Vec<u8>,
) -> Result<Result<Verdict, CheckError>, NoMemory> {
    let image = Image {
        pages: Bytes::from_vec(pages),
        log: Bytes::from_vec(log),
    };
    let mut host = QuietHost::new(alloc, image, Bytes::new(alloc), 0)?;
    Ok(check(alloc, &mut host))
}

fn lay(pages: &mut Vec<u8>, patch: Patch) {
    let (page, at, bytes) = patch;
    let first = PAGE.saturating_mul(page).saturating_add(at);
    for (place, byte) in bytes.iter().enumerate() {
        if let Some(old) = pages.get_mut(first.saturating_add(place)) {
            *old = *byte;
        }
    }
}

fn is_found(rt: &impl Abort, alloc: Global, damage: Damage) -> Result<(), Fail> {
    let (why, patches, found) = damage;
    let mut pages = sound_store(alloc)?;
    for patch in patches {
        lay(&mut pages, *patch);
    }
    let verdict = verdict_of(alloc, pages, Vec::new(alloc))?;
    let asked = match found {
        Found::Sound => Ok(Verdict::Sound),
        Found::NotAStore => Err(CheckError::NotAStore),
        Found::Wrong(page, rule) => Ok(Verdict::Wrong { page, rule }),
    };
    assert!(rt; verdict == asked, "{why}: {verdict:?}");
    Ok(())
}

#[test]
fn headers_are_told(rt: HostRuntime) -> Result<(), Fail> {
    for damage in HEADERS {
        is_found(&rt, rt.alloc(), damage)?;
    }
    Ok(())
}

#[test]
fn free_lists_are_told(rt: HostRuntime) -> Result<(), Fail> {
    for damage in FREE_LISTS {
        is_found(&rt, rt.alloc(), damage)?;
    }
    Ok(())
}

#[test]
fn catalogs_are_told(rt: HostRuntime) -> Result<(), Fail> {
    for damage in CATALOGS {
        is_found(&rt, rt.alloc(), damage)?;
    }
    Ok(())
}

#[test]
fn roots_of_documents_are_told(rt: HostRuntime) -> Result<(), Fail> {
    for damage in ROOTS_OF_DOCUMENTS {
        is_found(&rt, rt.alloc(), damage)?;
    }
    Ok(())
}

#[test]
fn slotted_pages_are_told(rt: HostRuntime) -> Result<(), Fail> {
    for damage in SLOTTED_PAGES {
        is_found(&rt, rt.alloc(), damage)?;
    }
    Ok(())
}

#[test]
fn forms_are_told(rt: HostRuntime) -> Result<(), Fail> {
    for damage in FORMS {
        is_found(&rt, rt.alloc(), damage)?;
    }
    Ok(())
}

#[test]
fn proxies_are_told(rt: HostRuntime) -> Result<(), Fail> {
    for damage in PROXIES {
        is_found(&rt, rt.alloc(), damage)?;
    }
    Ok(())
}

#[test]
fn nodes_are_told(rt: HostRuntime) -> Result<(), Fail> {
    for damage in NODES {
        is_found(&rt, rt.alloc(), damage)?;
    }
    Ok(())
}

#[test]
fn lists_are_told(rt: HostRuntime) -> Result<(), Fail> {
    for damage in LISTS {
        is_found(&rt, rt.alloc(), damage)?;
    }
    Ok(())
}

#[test]
fn weights_are_told(rt: HostRuntime) -> Result<(), Fail> {
    for damage in WEIGHTS {
        is_found(&rt, rt.alloc(), damage)?;
    }
    Ok(())
}
