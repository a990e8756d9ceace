// A catalog whose bytes are known.
ghost use Rattle.std.specs.Prelude.{◌≡◌, OnOk};
ghost use Rattle.nx_matrix.specs.Rules.{IsLabel, SetsEntry};

use crate::checks::{check_count, check_is};
use nx_catalog::Catalog;
use nx_hold::DocEntry;
use nx_lists::NoMemory;
use nx_matrix::{Entry, MatrixError, Rule, Rules};
use nx_pyx::is_document_name;
use nx_records::Rid;
use std::alloc::Global;
use std::process::Abort;
use std::test::Fail;

/// Three documents and two rules.
pub const BYTES: [u8; 69] = [
    0, 0, 0, 3, //
    0, 1, b'a', 0, 0, 0, 2, 0, 0, 0, 0, 0, 7, //
    0, 3, b'b', b'-', b'2', 0, 1, 0, 0, 1, 2, 0, 8, 0, 0, //
    0, 3, b'z', b'z', b'9', 255, 255, 255, 255, 255, 255, 0, 0, 0, 2, //
    0, 0, 0, 2, //
    0, 4, b'#', b'd', b'o', b'c', 0, 1, b'r', 1, //
    0, 1, b'r', 0, 2, b'@', b'x', 2,
];

/// ... and with the last document's name `b-1`, so that it is the second.
pub const RENAMED: [u8; 69] = [
    0, 0, 0, 3, //
    0, 1, b'a', 0, 0, 0, 2, 0, 0, 0, 0, 0, 7, //
    0, 3, b'b', b'-', b'1', 255, 255, 255, 255, 255, 255, 0, 0, 0, 2, //
    0, 3, b'b', b'-', b'2', 0, 1, 0, 0, 1, 2, 0, 8, 0, 0, //
    0, 0, 0, 2, //
    0, 4, b'#', b'd', b'o', b'c', 0, 1, b'r', 1, //
    0, 1, b'r', 0, 2, b'@', b'x', 2,
];

/// Their names.
pub const NAMES: [&[u8]; 3] = [b"a", b"b-2", b"zz9"];

/// Where they stand.
pub const ENTRIES: [DocEntry; 3] = [
    DocEntry {
        root: Rid { page: 2, slot: 0 },
        nodes: 7,
    },
    DocEntry {
        root: Rid {
            page: 65_536,
            slot: 258,
        },
        nodes: 524_288,
    },
    DocEntry {
        root: Rid {
            page: 4_294_967_295,
            slot: 65_535,
        },
        nodes: 2,
    },
];

/// Makes an entry of the rules. The documents stay.
pub fn set_rule(
    catalog: &mut Catalog,
    parent: &[u8],
    child: &[u8],
    entry: Entry,
) -> Result<(), MatrixError>
    requires parent { IsLabel parent.now }
    requires child { IsLabel child.now }
    ensures documents { catalog.new.documents ≡ catalog.old.documents }
    ensures ok { OnOk result (SetsEntry catalog.old.rules catalog.new.rules parent.now child.now entry) }
{
    catalog.matrix_mut().set(parent, child, entry)
}

/// Puts a document under a name that may be one.
pub fn put(
    rt: &impl Abort,
    catalog: &mut Catalog,
    name: &[u8],
    entry: DocEntry,
) -> Result<(), NoMemory> {
    assert!(rt; is_document_name(name));
    assert!(rt; catalog.len() < 1_000);
    catalog.set(name, entry)
}

/// The catalog, made by calls, the last first.
pub fn made(rt: &impl Abort, alloc: Global) -> Result<Catalog, Fail> {
    let mut catalog = Catalog::new(alloc);
    set_rules(&mut catalog)?;
    put_all(rt, &mut catalog)?;
    Ok(catalog)
}

fn set_rules(catalog: &mut Catalog) -> Result<(), MatrixError> {
    set_rule(catalog, b"r", b"@x", Entry::Cluster)?;
    set_rule(catalog, b"#doc", b"r", Entry::Standalone)
}

fn put_all(rt: &impl Abort, catalog: &mut Catalog) -> Result<(), NoMemory> {
    for (name, entry) in NAMES.iter().zip(ENTRIES.iter()).rev() {
        put(rt, catalog, name, *entry)?;
    }
    Ok(())
}

/// Looks at all that the catalog says.
pub fn check(rt: &impl Abort, catalog: &Catalog) -> Result<(), Fail> {
    check_found(rt, catalog);
    check_listed(rt, catalog);
    check_rules(rt, catalog)
}

// Whether this is the known document of that number.
fn is_known(number: usize, name: &[u8], entry: DocEntry) -> bool {
    number < 3 && name == NAMES[number] && entry == ENTRIES[number]
}

// The documents by their numbers and names.
fn check_found(rt: &impl Abort, catalog: &Catalog) {
    check_count(rt, catalog.len(), 3);
    for index in 0..3 {
        check_at(rt, catalog, index);
    }
    check_is(rt, catalog.at(3).is_none(), true);
    check_is(rt, catalog.find(b"b").is_none(), true);
}

fn check_at(rt: &impl Abort, catalog: &Catalog, index: u32) {
    match catalog.at(index) {
        Some(named) => check_named(rt, catalog, index, named.name, named.entry),
        None => panic!(rt; "document {index} is missing"),
    }
}

fn check_named(rt: &impl Abort, catalog: &Catalog, index: u32, name: &[u8], entry: DocEntry) {
    check_document(rt, is_known(index as usize, name, entry), index as usize);
    check_document(rt, is_found(catalog, name, entry), index as usize);
}

fn is_found(catalog: &Catalog, name: &[u8], entry: DocEntry) -> bool {
    catalog.find(name) == Some(entry)
}

fn check_document(rt: &impl Abort, is_right: bool, index: usize) {
    assert_eq!(rt; is_right, true, "document {index}");
}

// The documents in their order.
fn check_listed(rt: &impl Abort, catalog: &Catalog) {
    let mut count: usize = 0;
    for (name, entry) in catalog.iter() {
        check_document(rt, is_known(count, name.as_slice(), *entry), count);
        count = count.saturating_add(1);
    }
    check_is(rt, count == 3, true);
}

fn check_rules(rt: &impl Abort, catalog: &Catalog) -> Result<(), Fail> {
    let rules = rules_of(catalog)?;
    check_two(rt, rules.as_slice());
    Ok(())
}

fn rules_of(catalog: &Catalog) -> Result<Rules, MatrixError> {
    catalog.matrix().rules()
}

fn check_two(rt: &impl Abort, rules: &[Rule]) {
    let [first, second] = rules else {
        panic!(rt; "there are not two rules");
    };
    check_is(rt, is_rule(first, b"#doc", b"r", Entry::Standalone), true);
    check_is(rt, is_rule(second, b"r", b"@x", Entry::Cluster), true);
}

fn is_rule(rule: &Rule, parent: &[u8], child: &[u8], entry: Entry) -> bool {
    rule.parent.as_slice() == parent && rule.child.as_slice() == child && rule.entry == entry
}
