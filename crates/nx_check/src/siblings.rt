// What stands below a node, in its own record and in others.
ghost use Rattle.std.specs.Prelude.{◌≡◌, ◌≢◌, ◌++◌, ◌∷◌, ◌||◌, ◌&&◌, ℕ, [], List, true, not, IfOk, OnOk};
ghost use Rattle.std.specs.Str.{bytes_eq};
ghost use Rattle.nx_pyx.specs.Fault.{is_among};
ghost use Rattle.std.specs.Bool.{MatchBool};
ghost use Rattle.nx_piece.specs.Viewing.{seen_items};
ghost use Rattle.nx_check.specs.Heads.{Head, item_heads, names_among, one_if, elements_among, MayBeRow};
ghost use Rattle.nx_check.specs.Siblings.{far_names, AreAround, AreAroundGap, StandAround};

use crate::judging::{has_attribute_named, has_no_tree, is_attribute, may_be_top, some_attribute};
use nx_lists::NoMemory;
use nx_piece::{ItemView, ItemsView, TreeView};
use nx_tree::Kind;
use std::alloc::Global;
use std::collections::BTreeSet;

// The trees below a node, as far as a walk over the records has come.
#[derive(Drop)]
pub struct Siblings<'a> {
    alloc: Global,
    // The node's kind, and what stands below it in its record.
    pub kind: Kind,
    items: ItemsView<'a>,
    // The names of the attributes that other records have.
    names: BTreeSet<Vec<u8>>,
    // Whether something else than an attribute stands before the next of them.
    begun: bool,
    // Whether an attribute of the own record stands behind the next of them.
    behind: bool,
}

impl<'a> Siblings<'a> {
    // What stands below the tree's root in its record.
    pub fn new(alloc: Global, tree: TreeView<'a>) -> Siblings<'a>
        ensures kind { result.kind ≡ tree.entry.node.kind }
        ensures around { AreAround result [] (item_heads (seen_items tree.entry.children)) }
    {
        Siblings {
            alloc,
            kind: tree.node.kind,
            items: tree.children,
            names: BTreeSet::new(alloc),
            begun: false,
            behind: false,
        }
    }

    // Comes to a tree of the own record, and passes it.
    pub fn pass(&mut self, kind: Kind)
        ensures same { self.new.kind ≡ self.old.kind }
        ensures around { (before behind : List Head) → (head : Head) → head.kind ≡ kind → AreAround self.old before (head ∷ behind) → AreAround self.new (before ++ head ∷ []) behind }
    {
        if !is_attribute(kind) {
            self.begin();
        }
    }

    // Something else than an attribute stands there.
    fn begin(&mut self)
        ensures { self.new ≡ record self.old { begun = true } }
    {
        self.begun = true;
    }

    // Comes to trees of other records, behind which these of the own one stand.
    pub fn come(&mut self, beside: ItemsView<'_>)
        ensures same { self.new.kind ≡ self.old.kind }
        ensures around { (before : List Head) → AreAround self.old before (item_heads (seen_items beside.entry)) → AreAroundGap self.new before (item_heads (seen_items beside.entry)) }
    {
        self.behind = some_attribute(beside);
    }

    // Whether these roots of another record may stand there, their depth and what is below them aside. Where they may, they do. `element`
    // says whether an element stands right below the document's root.
    pub fn join(&mut self, roots: ItemsView<'_>, element: &mut bool) -> Result<bool, NoMemory>
        ensures same { self.new.kind ≡ self.old.kind }
        ensures other { self.old.kind ≢ Kind.Doc → element.new ≡ element.old }
        ensures ok { IfOk result (λ fit. (before behind : List Head) → StandAround self.old element.old before behind → MayBeRow self.old.kind (before ++ behind)
            → MatchBool fit (MayBeRow self.old.kind ((before ++ item_heads (seen_items roots.entry)) ++ behind) × StandAround self.new element.new (before ++ item_heads (seen_items roots.entry)) behind)
            (MayBeRow self.old.kind ((before ++ item_heads (seen_items roots.entry)) ++ behind) → ⊥)) }
    {
        match self.kind {
            Kind::Doc => Ok(may_be_top(roots, element)),
            Kind::Element => self.join_element(roots),
            _ => Ok(has_no_tree(roots)),
        }
    }

    // ... where the node is an element.
    fn join_element(&mut self, roots: ItemsView<'_>) -> Result<bool, NoMemory>
        ensures same { self.new.kind ≡ self.old.kind }
        ensures ok { IfOk result (λ fit. (before behind : List Head) → AreAroundGap self.old before behind → MayBeRow Kind.Element (before ++ behind)
            → MatchBool fit (MayBeRow Kind.Element ((before ++ item_heads (seen_items roots.entry)) ++ behind) × AreAroundGap self.new (before ++ item_heads (seen_items roots.entry)) behind)
            (MayBeRow Kind.Element ((before ++ item_heads (seen_items roots.entry)) ++ behind) → ⊥)) }
    {
        let mut left = roots;
        while let Some((item, beside)) = left.split_first() {
            if let ItemView::Tree(tree) = item {
                if !is_attribute(tree.node.kind) {
                    self.begin();
                } else if self.begun || !self.add_name(tree.node.name)? {
                    return Ok(false);
                }
            }
            left = beside;
        }
        Ok(self.is_apart())
    }

    // Whether no attribute of the own record stands behind something else.
    fn is_apart(&self) -> bool
        ensures { result ≡ not (self.now.begun && self.now.behind) }
    {
        !(self.begun && self.behind)
    }

    // Adds the name of an attribute, and says whether it is new.
    fn add_name(&mut self, name: &[u8]) -> Result<bool, NoMemory>
        ensures same { self.new ≡ record self.old { names = self.new.names } }
        ensures new { IfOk result (λ new. new ≡ not (is_among name.now (names_among (item_heads (seen_items self.old.items))) || is_among name.now (far_names self.old))) }
        ensures added { IfOk result (λ new. new ≡ true → (q : List ℕ) → is_among q (far_names self.new) ≡ (bytes_eq q name.now || is_among q (far_names self.old))) }
    {
        if has_attribute_named(self.items, name) {
            return Ok(false);
        }
        Ok(self.names.insert(Vec::from_slice(self.alloc, name)?)?)
    }
}
