// The map from pairs of labels to entries, kept as a sorted list of rules.
ghost use Rattle.std.specs.Prelude.{◌≡◌, ◌≢◌, ◌≤◌, [], length, IfOk, IfErr, OnOk, OnErr};
ghost use Rattle.nx_matrix.specs.Label.{label, behind_mark};

use crate::label::{compare_rule, mark_of, unmarked};
use crate::rule::make_rule;
use crate::{Entry, MOST_RULES, MatrixError, Rule, Rules};
use nx_tree::Node;
use std::alloc::Global;
use std::cmp::Ordering;
use std::marker::Model;

/// What is asked of a child below its parent, for each pair of labels: a map in which every pair has
/// the entry `Free` at first. Contracts see its rules in their order. It keeps its allocator.
#[derive(Drop)]
pub struct Matrix {
    alloc: Global,
    rules: Vec<Rule>,
}

impl Model for Matrix {
    ghost use Rattle.std.specs.Prelude.{List};
    ghost use Rattle.nx_matrix.specs.declared.rule.Rule.{Rule};
    ghost use Rattle.nx_matrix.specs.Rules.{AreRules};

    ghost Value = { List Rule };

    ghost view = { λ a. a.rules.items };

    ghost invariant = { λ a. AreRules a.rules.items };
}

impl Matrix {
    ghost use Rattle.nx_matrix.specs.Rules.{AddsRule, AreRules, IsRuleAt, IsGap, IsLabel, IsRuleRefused, SetsEntry, entry_of, most_rules};

    /// No rules. It takes no memory.
    pub fn new(alloc: Global) -> Matrix
        ensures { result ≡ [] }
    {
        Matrix {
            alloc,
            rules: Vec::new(alloc),
        }
    }

    /// The number of rules. It takes no memory.
    pub fn len(&self) -> u32
        ensures len { result ≡ length self.now }
        ensures most { result ≤ most_rules }
    {
        self.rules.len() as u32
    }

    /// Makes the entry of the pair of labels, each of which has 1 to 1,024 bytes. `Free` takes the pair's
    /// rule away.
    ///
    /// Errors: `TooManyRules` where the entry isn't `Free`, the pair has no rule and there are 4,096 rules,
    /// and `Memory` where there is none for one more rule. The matrix is as it was then. An entry of a pair
    /// that has a rule is made without memory, and so is `Free`.
    pub fn set(&mut self, parent: &[u8], child: &[u8], entry: Entry) -> Result<(), MatrixError>
        requires parent { IsLabel parent.now }
        requires child { IsLabel child.now }
        ensures ok { OnOk result (SetsEntry self.old self.new parent.now child.now entry) }
        ensures err { OnErr result (self.new ≡ self.old) }
        ensures cause { IfErr result (IsRuleRefused self.old parent.now child.now entry) }
    {
        match self.search(None, parent, None, child) {
            Ok(place) => {
                self.change(place, parent, child, entry);
                Ok(())
            }
            Err(place) => match entry {
                Entry::Free => Ok(()),
                _ => self.add(place, parent, child, entry),
            },
        }
    }

    /// The entry of the pair of the nodes' labels. An element's label is its name, that of the document's
    /// root `#doc`, that of a text `#text`, and that of an attribute or an instruction `@` or `?` and its
    /// name. It takes no memory, and looks at 13 rules at most.
    pub fn entry(&self, parent: &Node, child: &Node) -> Entry
        ensures { result ≡ entry_of self.now (label parent.now) (label child.now) }
    {
        let found = self.search(
            mark_of(parent.kind),
            unmarked(parent),
            mark_of(child.kind),
            unmarked(child),
        );
        match found {
            Ok(place) => self.rules[place].entry,
            Err(_) => Entry::Free,
        }
    }

    /// The rules, in the order of the parents' bytes and then of the children's.
    ///
    /// Errors: `Memory`.
    pub fn rules(&self) -> Result<Rules, MatrixError>
        ensures ok { IfOk result (λ rules. rules ≡ self.now) }
        ensures rules { AreRules self.now }
        ensures err { IfErr result (λ error. error ≡ MatrixError.Memory) }
    {
        let mut rules = Rules::with_capacity(self.alloc, self.rules.len())?;
        for rule in &self.rules {
            let (parent, child) = (rule.parent.as_slice(), rule.child.as_slice());
            rules.push(make_rule(self.alloc, parent, child, rule.entry)?)?;
        }
        Ok(rules)
    }

    // Where the rule for the pair of labels stands, or where it would stand.
    fn search(
        &self,
        parent_mark: Option<u8>,
        parent: &[u8],
        child_mark: Option<u8>,
        child: &[u8],
    ) -> Result<usize, usize>
        ensures found { IfOk result (IsRuleAt self.now (behind_mark parent_mark parent.now, behind_mark child_mark child.now)) }
        ensures absent { IfErr result (IsGap self.now (behind_mark parent_mark parent.now, behind_mark child_mark child.now)) }
    {
        let (mut low, mut high) = (0, self.rules.len());
        while low < high {
            let middle = low + (high - low) / 2;
            match compare_rule(&self.rules[middle], parent_mark, parent, child_mark, child) {
                Ordering::Less => low = middle + 1,
                Ordering::Equal => return Ok(middle),
                Ordering::Greater => high = middle,
            }
        }
        Err(low)
    }

    // Makes the entry of the rule at the place, which is for this pair.
    fn change(&mut self, place: usize, parent: &[u8], child: &[u8], entry: Entry)
        requires { IsRuleAt self.old (parent.now, child.now) place }
        ensures { SetsEntry self.old self.new parent.now child.now entry }
    {
        match entry {
            Entry::Free => {
                let _ = self.rules.remove(place);
            }
            _ => self.rules[place].entry = entry,
        }
    }

    // Adds a rule for a pair that has none, at the place where it belongs.
    fn add(
        &mut self,
        place: usize,
        parent: &[u8],
        child: &[u8],
        entry: Entry,
    ) -> Result<(), MatrixError>
        requires bound { entry ≢ Entry.Free }
        requires parent { IsLabel parent.now }
        requires child { IsLabel child.now }
        requires gap { IsGap self.old (parent.now, child.now) place }
        ensures ok { OnOk result (SetsEntry self.old self.new parent.now child.now entry) }
        ensures err { OnErr result (self.new ≡ self.old) }
        ensures cause { IfErr result (IsRuleRefused self.old parent.now child.now entry) }
    {
        if self.rules.len() >= MOST_RULES {
            return Err(MatrixError::TooManyRules);
        }
        let rule = make_rule(self.alloc, parent, child, entry)?;
        self.rules.insert(place, rule)?;
        Ok(())
    }
}
