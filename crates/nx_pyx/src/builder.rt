// From lines to a tree: the trees that are whole, and the elements that are open.
ghost use Rattle.std.specs.Prelude.{◌≡◌, ◌+◌, ◌&&◌, ◌≤◌, List, ℕ, [], ◌∷◌, ◌++◌, length, map, Some, IfOk, OnOk, IfErr, IsTrue, option_map, nat_le, false, ◌==◌, ◌<◌};
ghost use Rattle.nx_tree.specs.declared.node.Kind.TheVariants as kind;
ghost use Rattle.nx_tree.specs.Document.{IsDocument, deepest, most_nodes};
ghost use Rattle.nx_pyx.specs.Lines.{without_cr};
ghost use Rattle.nx_pyx.specs.Event.{Start, End, Single, event_of, events};
ghost use Rattle.nx_pyx.specs.Fault.{is_long, fault_at, first_fault, fault_at_end};
ghost use Rattle.nx_pyx.specs.Line.{node_in, event_in};
ghost use Rattle.nx_pyx.specs.Builder.{HasBuilt, Makes, RefusesEvent, Pushes, HasNoRoom, Fails};

use crate::line::{self, Line};
use crate::names::Names;
use crate::{PyxError, PyxFault, ReadError};
use nx_lists::{DEEPEST, MOST_NODES};
use nx_tree::{Bytes, Kind, Node, Tree, Trees};
use std::alloc::Global;
use std::mem;

// An open element: its name, and the trees that stand before it under the same parent.
#[derive(Drop)]
pub struct Level {
    pub before: Trees,
    pub name: Bytes,
}

// The open elements, the outermost first, and the children so far of the innermost one, or of the
// document's root where none is open.
#[derive(Drop)]
pub struct Builder {
    pub alloc: Global,
    pub levels: Vec<Level>,
    pub children: Trees,
    // Whether an element has come.
    pub rooted: bool,
    // The nodes so far, the document's root counted.
    pub nodes: u32,
    // Whether an attribute of the innermost element may come next, and then the names of those that
    // it has.
    pub may_have: bool,
    pub attributes: Names,
    pub lines: u64,
}

impl Builder {
    pub fn new(alloc: Global) -> Builder
        ensures { HasBuilt result [] }
    {
        Builder {
            alloc,
            levels: Vec::new(alloc),
            children: Trees::new(alloc),
            rooted: false,
            nodes: 1,
            may_have: false,
            attributes: Names::new(alloc),
            lines: 0,
        }
    }

    // Takes the next line, from which a CR at its end is dropped.
    pub fn take(&mut self, line: &[u8]) -> Result<(), ReadError>
        ensures ok { OnOk result ((ls : List (List ℕ)) → HasBuilt self.old ls → HasBuilt self.new (ls ++ without_cr line.now ∷ [])) }
        ensures err { IfErr result (λ e. (ls : List (List ℕ)) → HasBuilt self.old ls → Fails e (first_fault ls (without_cr line.now ∷ []))) }
    {
        self.lines = self.lines.saturating_add(1);
        match line::parse(line::without_cr(line)) {
            Some(line) => self.add(line),
            None => Err(self.fault(PyxFault::BadCode)),
        }
    }

    // The document of the lines, whose end this is.
    pub fn finish(mut self) -> Result<Tree, ReadError>
        ensures ok { IfOk result (λ t. (ls : List (List ℕ)) → HasBuilt self ls → IsDocument t × (map event_of ls ≡ map (λ e. Some e) (events t.below))) }
        ensures err { IfErr result (λ e. (ls : List (List ℕ)) → HasBuilt self ls → Fails e (fault_at_end ls)) }
    {
        if !self.is_outside() {
            return Err(self.fault(PyxFault::Unclosed));
        }
        if !self.rooted {
            return Err(self.fault(PyxFault::Empty));
        }
        let alloc = self.alloc;
        Ok(Tree {
            node: Node {
                kind: Kind::Doc,
                name: Bytes::new(alloc),
                content: Bytes::new(alloc),
            },
            children: mem::replace(&mut self.children, Trees::new(alloc)),
        })
    }

    // The fault at the line that comes next.
    pub fn next_fault(&self, fault: PyxFault) -> ReadError
        ensures { (ls : List (List ℕ)) → HasBuilt self.now ls → result ≡ ReadError.Pyx (fault_at (length ls + 1) fault) }
    {
        ReadError::Pyx(PyxError {
            line: self.lines.saturating_add(1),
            fault,
        })
    }

    // Adds what a line says.
    fn add(&mut self, line: Line<'_>) -> Result<(), ReadError>
        ensures ok { OnOk result (Makes self.old self.new (event_in line.entry)) }
        ensures err { IfErr result (RefusesEvent self.old self.old.lines (event_in line.entry)) }
    {
        if line.is_long() {
            return Err(self.fault(PyxFault::LongLine));
        }
        match line {
            Line::Start(name) => self.start(name),
            Line::End(name) => self.end(name),
            Line::Attribute(name, content) => self.attribute(name, content),
            Line::Text(content) => self.text(content),
            Line::Instruction(name, content) => self.instruction(name, content),
        }
    }

    // An element starts.
    fn start(&mut self, name: &[u8]) -> Result<(), ReadError>
        requires { is_long (Start name.now) ≡ false }
        ensures ok { OnOk result (Makes self.old self.new (Start name.now)) }
        ensures err { IfErr result (RefusesEvent self.old self.old.lines (Start name.now)) }
    {
        if !line::is_name(name) {
            return Err(self.fault(PyxFault::BadName));
        }
        if self.is_beside() {
            return Err(self.fault(PyxFault::BadNesting));
        }
        self.has_room()?;
        let name = Bytes::from_slice(self.alloc, name)?;
        let before = mem::replace(&mut self.children, Trees::new(self.alloc));
        self.levels.push(Level { before, name })?;
        self.attributes.clear();
        self.may_have = true;
        self.rooted = true;
        self.nodes += 1;
        Ok(())
    }

    // The innermost open element ends.
    fn end(&mut self, name: &[u8]) -> Result<(), ReadError>
        requires { is_long (End name.now) ≡ false }
        ensures ok { OnOk result (Makes self.old self.new (End name.now)) }
        ensures err { IfErr result (RefusesEvent self.old self.old.lines (End name.now)) }
    {
        let Some(level) = self.levels.pop() else {
            return Err(self.fault(PyxFault::BadNesting));
        };
        if name != level.name.as_slice() {
            return Err(self.fault(PyxFault::BadNesting));
        }
        let Level { before, name } = level;
        let below = mem::replace(&mut self.children, before);
        let content = Bytes::new(self.alloc);
        self.children.push(Tree {
            node: Node {
                kind: Kind::Element,
                name,
                content,
            },
            children: below,
        })?;
        self.may_have = false;
        Ok(())
    }

    // An attribute of the innermost open element.
    fn attribute(&mut self, name: &[u8], content: &[u8]) -> Result<(), ReadError>
        requires { is_long (Single (node_in kind.Attribute name.now content.now)) ≡ false }
        ensures ok { OnOk result (Makes self.old self.new (Single (node_in kind.Attribute name.now content.now))) }
        ensures err { IfErr result (RefusesEvent self.old self.old.lines (Single (node_in kind.Attribute name.now content.now))) }
    {
        if !line::is_name(name) {
            return Err(self.fault(PyxFault::BadName));
        }
        if !self.may_have {
            return Err(self.fault(PyxFault::BadAttribute));
        }
        if !self.attributes.insert(name)? {
            return Err(self.fault(PyxFault::Twice));
        }
        self.has_room()?;
        self.push(Kind::Attribute, name, content)
    }

    // A text.
    fn text(&mut self, content: &[u8]) -> Result<(), ReadError>
        requires { is_long (Single (node_in kind.Text [] content.now)) ≡ false }
        ensures ok { OnOk result (Makes self.old self.new (Single (node_in kind.Text [] content.now))) }
        ensures err { IfErr result (RefusesEvent self.old self.old.lines (Single (node_in kind.Text [] content.now))) }
    {
        if self.is_outside() {
            return Err(self.fault(PyxFault::BadNesting));
        }
        self.has_room()?;
        self.may_have = false;
        self.push(Kind::Text, &[], content)
    }

    // An instruction.
    fn instruction(&mut self, name: &[u8], content: &[u8]) -> Result<(), ReadError>
        requires { is_long (Single (node_in kind.Instruction name.now content.now)) ≡ false }
        ensures ok { OnOk result (Makes self.old self.new (Single (node_in kind.Instruction name.now content.now))) }
        ensures err { IfErr result (RefusesEvent self.old self.old.lines (Single (node_in kind.Instruction name.now content.now))) }
    {
        if !line::is_name(name) {
            return Err(self.fault(PyxFault::BadName));
        }
        self.has_room()?;
        self.may_have = false;
        self.push(Kind::Instruction, name, content)
    }

    // Adds a node without children to those of the innermost element.
    fn push(&mut self, kind: Kind, name: &[u8], content: &[u8]) -> Result<(), ReadError>
        requires { self.old.nodes < most_nodes }
        ensures ok { OnOk result (Pushes self.old self.new (node_in kind name.now content.now)) }
        ensures err { IfErr result (λ e. e ≡ ReadError.Memory) }
    {
        let node = Node {
            kind,
            name: Bytes::from_slice(self.alloc, name)?,
            content: line::unescaped(self.alloc, content)?,
        };
        self.children.push(Tree {
            node,
            children: Trees::new(self.alloc),
        })?;
        self.nodes += 1;
        Ok(())
    }

    // That the next node would neither lie too deep nor be one too many.
    fn has_room(&self) -> Result<(), ReadError>
        ensures ok { OnOk result ((nat_le deepest (length self.now.levels.items) ≡ false) × (self.now.nodes < most_nodes)) }
        ensures err { IfErr result (HasNoRoom self.now) }
    {
        if self.levels.as_slice().len() >= DEEPEST {
            return Err(self.fault(PyxFault::TooDeep));
        }
        if self.nodes >= MOST_NODES {
            return Err(self.fault(PyxFault::TooMany));
        }
        Ok(())
    }

    // Whether no element is open.
    fn is_outside(&self) -> bool
        ensures { result ≡ (length self.now.levels.items == 0) }
    {
        self.levels.as_slice().is_empty()
    }

    // Whether an element that starts would stand beside the root element.
    fn is_beside(&self) -> bool
        ensures { result ≡ ((length self.now.levels.items == 0) && self.now.rooted) }
    {
        self.is_outside() && self.rooted
    }

    // The fault at the line that was taken last.
    fn fault(&self, fault: PyxFault) -> ReadError
        ensures { result ≡ ReadError.Pyx (fault_at self.now.lines fault) }
    {
        ReadError::Pyx(PyxError {
            line: self.lines,
            fault,
        })
    }
}
