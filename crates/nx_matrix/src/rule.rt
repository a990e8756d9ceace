// What is asked of a child below its parent, and for which pair of labels.
ghost use Rattle.std.specs.Prelude.{◌≡◌, IfOk};

use nx_lists::{List, NoMemory};
use nx_tree::Bytes;
use std::alloc::Global;

/// As many rules as a matrix has at most.
pub const MOST_RULES: usize = 4096;

/// As many bytes as a label has at most.
pub const LONGEST_LABEL: usize = 1024;

/// What is asked of a child below its parent.
#[derive(Clone, Copy, Debug, PartialEq, Eq)]
pub enum Entry {
    /// The child is an interval alone.
    Standalone,
    /// The child stays in its parent's part, where that is possible.
    Cluster,
    /// Nothing is asked. It is so where there is no rule.
    Free,
}

/// An entry, and for which labels of a parent and a child it is. Among the rules of a matrix none is
/// `Free`.
#[derive(Drop)]
pub struct Rule {
    pub parent: Bytes,
    pub child: Bytes,
    pub entry: Entry,
}

/// A list of rules.
pub type Rules = List<Rule>;

// A rule for copies of these labels.
pub(crate) fn make_rule(
    alloc: Global,
    parent: &[u8],
    child: &[u8],
    entry: Entry,
) -> Result<Rule, NoMemory>
    ensures { IfOk result (λ rule. rule ≡ record { parent = parent.now; child = child.now; entry = entry }) }
{
    Ok(Rule {
        parent: Bytes::from_slice(alloc, parent)?,
        child: Bytes::from_slice(alloc, child)?,
        entry,
    })
}
