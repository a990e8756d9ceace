// The bytes of a catalog, read. Each function is given bytes of anybody, and gives what they begin with and
// what stands behind it.
ghost use Rattle.std.specs.Prelude.{◌≡◌, ◌≤◌, [], IfOk, IfSome, MatchOption};
ghost use Rattle.std.specs.Int.{w16, w32};
ghost use Rattle.std.specs.Ordering.{is_lt};
ghost use Rattle.std.specs.BTreeMap.{IsOrdered};
ghost use Rattle.nx_matrix.specs.Rules.{pair_cmp, most_rules};
ghost use Rattle.nx_catalog.specs.Catalog.{Contents, IsCatalog};
ghost use Rattle.nx_pyx.specs.DocumentName.{vector_order, by_bytes};
ghost use Rattle.nx_catalog.specs.Reading.{IsReadAs, leading_number, counted_at, place_at, document_at, documents_at, all_documents_at, entry_at, rule_at, rules_at, all_rules_at};

use crate::{Catalog, Named};
use nx_hold::DocEntry;
use nx_lists::NoMemory;
use nx_matrix::{Entry, MOST_RULES, Matrix, is_child_label, is_parent_label};
use nx_pyx::is_document_name;
use nx_records::Rid;
use std::alloc::Global;
use std::cmp::Ordering;
use std::collections::BTreeMap;

/// The catalog that the bytes say: `Some` exactly where they are those of one, and else `None`.
///
/// Errors: `NoMemory`.
pub fn catalog_of(alloc: Global, bytes: &[u8]) -> Result<Option<Catalog>, NoMemory>
    ensures { IfOk result (λ found. MatchOption found ((contents : Contents) → IsCatalog bytes.now contents → ⊥) (λ catalog. IsCatalog bytes.now catalog)) }
{
    let Some((documents, rest)) = read_documents(alloc, bytes)? else {
        return Ok(None);
    };
    let Some((matrix, rest)) = read_rules(alloc, rest)? else {
        return Ok(None);
    };
    if !rest.is_empty() {
        return Ok(None);
    }
    Ok(Some(Catalog {
        alloc,
        documents,
        matrix,
        places: BTreeMap::new(alloc),
    }))
}

// The documents behind their number.
#[tactic(auto, unfolding(crate::specs::Reading::all_documents_at))]
fn read_documents(
    alloc: Global,
    bytes: &[u8],
) -> Result<Option<(BTreeMap<Vec<u8>, DocEntry>, &[u8])>, NoMemory>
    ensures read { IfOk result (λ found. IsReadAs (λ read. (by_bytes read.0.entries, read.1.now)) found (all_documents_at bytes.now)) }
    ensures ordered { IfOk result (λ found. IfSome found (λ read. IsOrdered vector_order read.0)) }
{
    let Some((count, rest)) = read_four(bytes) else {
        return Ok(None);
    };
    documents_of(alloc, count, rest)
}

// So many documents, in the order of their names.
fn documents_of(
    alloc: Global,
    count: u32,
    bytes: &[u8],
) -> Result<Option<(BTreeMap<Vec<u8>, DocEntry>, &[u8])>, NoMemory>
    ensures read { IfOk result (λ found. IsReadAs (λ read. (by_bytes read.0.entries, read.1.now)) found (documents_at count [] bytes.now)) }
    ensures ordered { IfOk result (λ found. IfSome found (λ read. IsOrdered vector_order read.0)) }
{
    let mut documents = BTreeMap::new(alloc);
    let mut last: &[u8] = &[];
    let mut rest = bytes;
    for _ in 0..count {
        let Some((document, behind)) = read_document(rest) else {
            return Ok(None);
        };
        if !last.cmp(&document.name).is_lt() {
            return Ok(None);
        }
        let name = Vec::from_slice(alloc, document.name)?;
        documents.insert(name, document.entry)?;
        last = document.name;
        rest = behind;
    }
    Ok(Some((documents, rest)))
}

// The rules behind their number.
#[tactic(auto, unfolding(crate::specs::Reading::all_rules_at))]
fn read_rules(alloc: Global, bytes: &[u8]) -> Result<Option<(Matrix, &[u8])>, NoMemory>
    ensures { IfOk result (λ found. IsReadAs (λ read. (read.0, read.1.now)) found (all_rules_at bytes.now)) }
{
    let Some((count, rest)) = read_four(bytes) else {
        return Ok(None);
    };
    if count as usize > MOST_RULES {
        return Ok(None);
    }
    rules_of(alloc, count, rest)
}

// So many rules, in the order of their labels.
fn rules_of(alloc: Global, count: u32, bytes: &[u8]) -> Result<Option<(Matrix, &[u8])>, NoMemory>
    requires { count ≤ most_rules }
    ensures { IfOk result (λ found. IsReadAs (λ read. (read.0, read.1.now)) found (rules_at count ([], []) bytes.now)) }
{
    let mut matrix = Matrix::new(alloc);
    let mut last = Labels {
        parent: &[],
        child: &[],
    };
    let mut rest = bytes;
    for _ in 0..count {
        let Some((labels, entry, behind)) = read_rule(rest) else {
            return Ok(None);
        };
        if !last.come_before(labels) {
            return Ok(None);
        }
        let Ok(()) = matrix.set(labels.parent, labels.child, entry) else {
            return Err(NoMemory);
        };
        last = labels;
        rest = behind;
    }
    Ok(Some((matrix, rest)))
}

#[tactic(auto, unfolding(crate::specs::Reading::document_at))]
fn read_document(bytes: &[u8]) -> Option<(Named<'_>, &[u8])>
    ensures { IsReadAs (λ read. ((read.0.name.now, read.0.entry), read.1.now)) result (document_at bytes.now) }
{
    let (name, rest) = read_counted(bytes)?;
    let (entry, rest) = read_place(rest)?;
    if !is_document_name(name) {
        return None;
    }
    Some((Named { name, entry }, rest))
}

#[tactic(auto, unfolding(crate::specs::Reading::place_at))]
fn read_place(bytes: &[u8]) -> Option<(DocEntry, &[u8])>
    ensures { IsReadAs (λ read. (read.0, read.1.now)) result (place_at bytes.now) }
{
    let (page, rest) = read_four(bytes)?;
    let (slot, rest) = read_two(rest)?;
    let (nodes, rest) = read_four(rest)?;
    let root = Rid { page, slot };
    Some((DocEntry { root, nodes }, rest))
}

// The labels of a rule.
#[derive(Clone, Copy)]
struct Labels<'a> {
    parent: &'a [u8],
    child: &'a [u8],
}

impl Labels<'_> {
    // Whether these labels come before others.
    fn come_before(self, others: Labels<'_>) -> bool
        ensures { result ≡ is_lt (pair_cmp (self.entry.parent.now, self.entry.child.now) (others.entry.parent.now, others.entry.child.now)) }
    {
        match self.parent.cmp(&others.parent) {
            Ordering::Less => true,
            Ordering::Equal => self.child.cmp(&others.child).is_lt(),
            Ordering::Greater => false,
        }
    }
}

#[tactic(auto, unfolding(crate::specs::Reading::rule_at))]
fn read_rule(bytes: &[u8]) -> Option<(Labels<'_>, Entry, &[u8])>
    ensures { IsReadAs (λ read. (record { parent = read.0.parent.now; child = read.0.child.now; entry = read.1 }, read.2.now)) result (rule_at bytes.now) }
{
    let (parent, rest) = read_counted(bytes)?;
    let (child, rest) = read_counted(rest)?;
    let (entry, rest) = read_entry(rest)?;
    if !is_parent_label(parent) || !is_child_label(child) {
        return None;
    }
    Some((Labels { parent, child }, entry, rest))
}

#[tactic(auto, unfolding(crate::specs::Reading::entry_at))]
fn read_entry(bytes: &[u8]) -> Option<(Entry, &[u8])>
    ensures { IsReadAs (λ read. (read.0, read.1.now)) result (entry_at bytes.now) }
{
    match bytes {
        [1, rest @ ..] => Some((Entry::Standalone, rest)),
        [2, rest @ ..] => Some((Entry::Cluster, rest)),
        _ => None,
    }
}

// Bytes behind their number.
#[tactic(auto, unfolding(crate::specs::Reading::counted_at))]
fn read_counted(bytes: &[u8]) -> Option<(&[u8], &[u8])>
    ensures { IsReadAs (λ read. (read.0.now, read.1.now)) result (counted_at bytes.now) }
{
    let (size, rest) = read_two(bytes)?;
    let size = usize::from(size);
    if rest.len() < size {
        return None;
    }
    Some(rest.split_at(size))
}

fn read_two(bytes: &[u8]) -> Option<(u16, &[u8])>
    ensures { IsReadAs (λ read. (read.0, read.1.now)) result (leading_number w16 bytes.now) }
{
    if bytes.len() < 2 {
        return None;
    }
    let (front, rest) = bytes.split_at(2);
    Some((u16::from_be_bytes([front[0], front[1]]), rest))
}

fn read_four(bytes: &[u8]) -> Option<(u32, &[u8])>
    ensures { IsReadAs (λ read. (read.0, read.1.now)) result (leading_number w32 bytes.now) }
{
    if bytes.len() < 4 {
        return None;
    }
    let (front, rest) = bytes.split_at(4);
    let number = u32::from_be_bytes([front[0], front[1], front[2], front[3]]);
    Some((number, rest))
}
