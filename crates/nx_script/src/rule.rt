// The rules that a script can say.
ghost use Rattle.std.specs.Prelude.{◌≡◌, IfOk};
ghost use Rattle.nx_script.specs.Rule.{entry_word, entry_named, rule_of};

use nx_matrix::{Entry, Rule, is_child_label, is_parent_label};
use nx_pyx::split_field;
use nx_tree::{Bytes, NoMemory};
use std::alloc::Global;

// The rule that three fields say, if they say one: the labels of a parent and a child, and the word
// of an entry.
pub fn read_rule(alloc: Global, bytes: &[u8]) -> Result<Option<Rule>, NoMemory>
    ensures { IfOk result (λ found. found ≡ rule_of bytes.now) }
{
    let (parent, Some(more)) = split_field(bytes) else {
        return Ok(None);
    };
    let (child, Some(word)) = split_field(more) else {
        return Ok(None);
    };
    if !is_parent_label(parent) || !is_child_label(child) {
        return Ok(None);
    }
    let Some(entry) = entry_named(word) else {
        return Ok(None);
    };
    Ok(Some(Rule {
        parent: Bytes::from_slice(alloc, parent)?,
        child: Bytes::from_slice(alloc, child)?,
        entry,
    }))
}

// The word of an entry.
pub fn entry_word(entry: Entry) -> &'static [u8]
    ensures { result.now ≡ entry_word entry }
{
    match entry {
        Entry::Standalone => b"standalone",
        Entry::Cluster => b"cluster",
        Entry::Free => b"free",
    }
}

// The entry that the bytes name, if they name one.
fn entry_named(word: &[u8]) -> Option<Entry>
    ensures { result ≡ entry_named word.now }
{
    if word == b"standalone".as_slice() {
        Some(Entry::Standalone)
    } else if word == b"cluster".as_slice() {
        Some(Entry::Cluster)
    } else if word == b"free".as_slice() {
        Some(Entry::Free)
    } else {
        None
    }
}
