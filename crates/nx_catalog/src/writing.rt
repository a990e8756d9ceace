// The bytes of a catalog, written.
ghost use Rattle.std.specs.Prelude.{◌≡◌, ◌<◌, ◌≤◌, ◌++◌, length, flat_map, All, IfOk, OnOk};
ghost use Rattle.nx_matrix.specs.Rules.{AreRules, longest_label};
ghost use Rattle.nx_matrix.specs.RuleLabels.{HasLabels};
ghost use Rattle.nx_pyx.specs.DocumentName.{by_bytes};
ghost use Rattle.nx_catalog.specs.Inside.{AreDocumentEntries};
ghost use Rattle.nx_catalog.specs.Catalog.{IsCatalog, catalog_bytes, with_length, place_bytes, entry_byte, document_bytes, rule_bytes};
ghost use Rattle.nx_piece.specs.Encoding.{four_bytes, two_bytes};

use crate::Catalog;
use nx_hold::DocEntry;
use nx_lists::NoMemory;
use nx_matrix::{Entry, MatrixError, Rule};
use nx_tree::Bytes;
use std::alloc::Global;
use std::collections::BTreeMap;

impl Catalog {
    // The bytes of the catalog.
    pub(crate) fn bytes(&self) -> Result<Bytes, NoMemory>
        ensures bytes { IfOk result (λ bytes. bytes ≡ catalog_bytes self.now) }
        ensures form { All HasLabels self.now.rules → IsCatalog (catalog_bytes self.now) self.now }
    {
        let rules = match self.matrix.rules() {
            Ok(rules) => rules,
            Err(_) => return Err(NoMemory),
        };
        let mut out = Bytes::new(self.alloc);
        push_documents(&self.documents, &mut out)?;
        push_rules(rules.as_slice(), &mut out)?;
        Ok(out)
    }
}

// The documents behind their number.
fn push_documents(documents: &BTreeMap<Vec<u8>, DocEntry>, out: &mut Bytes) -> Result<(), NoMemory>
    requires { AreDocumentEntries documents.now }
    ensures { OnOk result (out.new ≡ out.old ++ (four_bytes (length documents.now.entries) ++ flat_map document_bytes (by_bytes documents.now.entries))) }
{
    push_four(documents.len() as u32, out)?;
    for (name, entry) in documents {
        push_document(name.as_slice(), *entry, out)?;
    }
    Ok(())
}

// The rules behind their number.
fn push_rules(rules: &[Rule], out: &mut Bytes) -> Result<(), NoMemory>
    requires { AreRules rules.now }
    ensures { OnOk result (out.new ≡ out.old ++ (four_bytes (length rules.now) ++ flat_map rule_bytes rules.now)) }
{
    push_four(rules.len() as u32, out)?;
    for rule in rules {
        push_rule(rule, out)?;
    }
    Ok(())
}

fn push_document(name: &[u8], entry: DocEntry, out: &mut Bytes) -> Result<(), NoMemory>
    requires { length name.now < 65536 }
    ensures { OnOk result (out.new ≡ out.old ++ document_bytes (name.now, entry)) }
{
    push_counted(name, out)?;
    push_place(entry, out)
}

// The bytes of an entry.
pub(crate) fn entry_bytes(alloc: Global, entry: DocEntry) -> Result<Bytes, NoMemory>
    ensures { IfOk result (λ bytes. bytes ≡ place_bytes entry) }
{
    let mut out = Bytes::new(alloc);
    push_place(entry, &mut out)?;
    Ok(out)
}

fn push_place(entry: DocEntry, out: &mut Bytes) -> Result<(), NoMemory>
    ensures { OnOk result (out.new ≡ out.old ++ place_bytes entry) }
{
    push_four(entry.root.page, out)?;
    push_two(entry.root.slot, out)?;
    push_four(entry.nodes, out)
}

fn push_rule(rule: &Rule, out: &mut Bytes) -> Result<(), NoMemory>
    requires parent { length rule.now.parent ≤ longest_label }
    requires child { length rule.now.child ≤ longest_label }
    ensures { OnOk result (out.new ≡ out.old ++ rule_bytes rule.now) }
{
    push_counted(rule.parent.as_slice(), out)?;
    push_counted(rule.child.as_slice(), out)?;
    out.push(byte_of(rule.entry))
}

// The byte of an entry. No rule is `Free`.
fn byte_of(entry: Entry) -> u8
    ensures { result ≡ entry_byte entry }
{
    match entry {
        Entry::Standalone => 1,
        Entry::Cluster => 2,
        Entry::Free => 0,
    }
}

// Bytes behind their number.
fn push_counted(bytes: &[u8], out: &mut Bytes) -> Result<(), NoMemory>
    requires { length bytes.now < 65536 }
    ensures { OnOk result (out.new ≡ out.old ++ with_length bytes.now) }
{
    push_two(bytes.len() as u16, out)?;
    out.extend_from_slice(bytes)
}

fn push_two(n: u16, out: &mut Bytes) -> Result<(), NoMemory>
    ensures { OnOk result (out.new ≡ out.old ++ two_bytes n) }
{
    out.extend_from_slice(&n.to_be_bytes())
}

fn push_four(n: u32, out: &mut Bytes) -> Result<(), NoMemory>
    ensures { OnOk result (out.new ≡ out.old ++ four_bytes n) }
{
    out.extend_from_slice(&n.to_be_bytes())
}
