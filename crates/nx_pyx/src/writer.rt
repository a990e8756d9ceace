// From a tree to its canonical text, line by line.
ghost use Rattle.std.specs.Prelude.{◌≡◌, ◌≢◌, ◌<◌, ◌≤◌, ℕ, List, [], ◌∷◌, ◌++◌, length, take, true, false, IsTrue, ◌↔◌, Ok, IfOk, IsOkAnd, OnOk, OnErr};
ghost use Rattle.std.specs.List.{list_any};
ghost use Rattle.nx_tree.specs.Forest.{forest_of};
ghost use Rattle.nx_pyx.specs.Event.{Event, events};
ghost use Rattle.nx_pyx.specs.Text.{text, tree_text, text_of, escape, escaped, node_line};
ghost use Rattle.nx_pyx.specs.LineStart.{line_start};
ghost use Rattle.nx_pyx.specs.Escape.{needs_escape};

use crate::scan::{self, Escaped};
use nx_tree::{Bytes, Kind, NoMemory, Node, Tree};
use std::alloc::Global;
use std::marker::Model;
use std::slice;

// An open element: its name, and the trees that stand after it under the same parent.
#[derive(Clone, Copy)]
struct OpenElement<'a> {
    name: &'a [u8],
    after: &'a [Tree],
}

/// Writes a tree's canonical text in blocks, without a copy of it as a whole. Contracts see the
/// bytes that are still to come.
#[derive(Drop)]
pub struct Writer<'a> {
    // The open elements, the outermost first.
    elements: Vec<OpenElement<'a>>,
    // The trees that are left in the innermost one, or under the root where none is open.
    rest: &'a [Tree],
}

impl<'a> Model for Writer<'a> {
    ghost use Rattle.std.specs.Prelude.{ℕ, List};

    ghost Value = { List ℕ };

    ghost use Rattle.nx_pyx.specs.Writer.{text_left};

    ghost view = { text_left };
}

impl<'a> Writer<'a> {
    /// A writer of the whole text. It takes no memory and doesn't fail.
    pub fn new(alloc: Global, tree: &'a Tree) -> Result<Writer<'a>, NoMemory>
        ensures { IsOkAnd result (λ writer. writer ≡ text tree.now) }
    {
        Ok(Writer {
            elements: Vec::new(alloc),
            rest: tree.children.as_slice(),
        })
    }

    /// Adds lines to the block until it has at least `enough` bytes or the text has ended, and says
    /// whether there is more.
    ///
    /// Errors: `NoMemory`. What was added by then is whole lines, and a later call goes on behind them.
    pub fn fill(&mut self, block: &mut Bytes, enough: usize) -> Result<bool, NoMemory>
        ensures text { block.new ++ self.new ≡ block.old ++ self.old }
        ensures prefix { (n : ℕ) × (block.new ≡ block.old ++ take n self.old) }
        ensures lines { (es : List Event) × (block.new ≡ block.old ++ text_of es) }
        ensures more { result ≡ Ok true → (enough ≤ length block.new) × (self.new ≢ []) }
        ensures end { result ≡ Ok false → self.new ≡ [] }
    {
        while block.len() < enough {
            if !self.step(block)? {
                return Ok(false);
            }
        }
        Ok(!self.is_done())
    }

    // Whether no line is left.
    fn is_done(&self) -> bool
        ensures { IsTrue result ↔ (self.now ≡ []) }
    {
        self.rest.is_empty() && self.elements.is_empty()
    }

    // Adds the next line, if there is one. Want of memory leaves the block and the writer as they were.
    fn step(&mut self, block: &mut Bytes) -> Result<bool, NoMemory>
        ensures text { block.new ++ self.new ≡ block.old ++ self.old }
        ensures lines { (es : List Event) × (block.new ≡ block.old ++ text_of es) }
        ensures more { result ≡ Ok true → length block.old < length block.new }
        ensures end { result ≡ Ok false → self.new ≡ [] }
    {
        let len = block.len();
        let wrote = self.write_line(block);
        if wrote.is_err() {
            block.truncate(len);
        }
        wrote
    }

    // Adds the next line, if there is one. Want of memory leaves the writer as it was.
    fn write_line(&mut self, block: &mut Bytes) -> Result<bool, NoMemory>
        ensures ok { OnOk result (block.new ++ self.new ≡ block.old ++ self.old) }
        ensures err { OnErr result (self.new ≡ self.old) }
        ensures lines { OnOk result ((es : List Event) × (block.new ≡ block.old ++ text_of es)) }
        ensures prefix { (bytes : List ℕ) × (block.new ≡ block.old ++ bytes) }
        ensures more { result ≡ Ok true → length block.old < length block.new }
        ensures end { result ≡ Ok false → self.new ≡ [] }
    {
        if let Some((tree, others)) = self.rest.split_first() {
            push_node_line(block, &tree.node)?;
            block.push(b'\n')?;
            match tree.node.kind {
                Kind::Element => {
                    self.elements.push(OpenElement {
                        name: tree.node.name.as_slice(),
                        after: others,
                    })?;
                    self.rest = tree.children.as_slice();
                }
                _ => self.rest = others,
            }
            return Ok(true);
        }
        let Some(element) = self.elements.last().copied() else {
            return Ok(false);
        };
        push_name(block, b')', element.name)?;
        block.push(b'\n')?;
        let _ = self.elements.pop();
        self.rest = element.after;
        Ok(true)
    }
}

/// The canonical text of a document.
///
/// Errors: `NoMemory`.
pub fn write(alloc: Global, tree: &Tree) -> Result<Bytes, NoMemory>
    ensures { IfOk result (λ bytes. bytes ≡ text tree.now) }
{
    write_all(alloc, tree.children.as_slice())
}

/// The canonical lines of a node with all below it, each with its LF, as they stand in the text of its document; of a
/// document's root the whole text.
///
/// Errors: `NoMemory`.
pub fn write_tree(alloc: Global, tree: &Tree) -> Result<Bytes, NoMemory>
    ensures { IfOk result (λ bytes. bytes ≡ tree_text tree.now) }
{
    match tree.node.kind {
        Kind::Doc => write(alloc, tree),
        _ => write_all(alloc, slice::from_ref(tree)),
    }
}

// The canonical lines of trees beside each other.
fn write_all(alloc: Global, trees: &[Tree]) -> Result<Bytes, NoMemory>
    ensures { IfOk result (λ bytes. bytes ≡ text_of (events (forest_of trees.now))) }
{
    let mut bytes = Bytes::new(alloc);
    let mut writer = Writer {
        elements: Vec::new(alloc),
        rest: trees,
    };
    while writer.step(&mut bytes)? {}
    Ok(bytes)
}

/// The canonical line of one node, without a line end; `#doc` for the root of a document.
///
/// Errors: `NoMemory`.
pub fn node_line(alloc: Global, node: &Node) -> Result<Bytes, NoMemory>
    ensures { IfOk result (λ line. line ≡ node_line node.now.kind node.now.name node.now.content) }
{
    let mut line = Bytes::new(alloc);
    push_node_line(&mut line, node)?;
    Ok(line)
}

/// Adds the canonical line of one node to the block, without a line end; `#doc` for the root of a
/// document.
///
/// Errors: `NoMemory`. The first bytes of the line may then stand behind what the block had.
pub fn push_node_line(block: &mut Bytes, node: &Node) -> Result<(), NoMemory>
    ensures ok { OnOk result (block.new ≡ block.old ++ node_line node.now.kind node.now.name node.now.content) }
    ensures prefix { (n : ℕ) × (block.new ≡ block.old ++ take n (node_line node.now.kind node.now.name node.now.content)) }
{
    push_parts_line(
        block,
        node.kind,
        node.name.as_slice(),
        node.content.as_slice(),
    )
}

/// As `push_node_line`, of a node of this kind, with this name and this content.
///
/// Errors: `NoMemory`. The first bytes of the line may then stand behind what the block had.
pub fn push_parts_line(
    block: &mut Bytes,
    kind: Kind,
    name: &[u8],
    content: &[u8],
) -> Result<(), NoMemory>
    ensures ok { OnOk result (block.new ≡ block.old ++ node_line kind name.now content.now) }
    ensures prefix { (n : ℕ) × (block.new ≡ block.old ++ take n (node_line kind name.now content.now)) }
{
    match kind {
        Kind::Doc => block.extend_from_slice(b"#doc")?,
        Kind::Element => push_name(block, b'(', name)?,
        Kind::Attribute => {
            push_name(block, b'A', name)?;
            push_content(block, b' ', content)?;
        }
        Kind::Text => push_content(block, b'-', content)?,
        Kind::Instruction => {
            push_name(block, b'?', name)?;
            if !content.is_empty() {
                push_content(block, b' ', content)?;
            }
        }
    }
    Ok(())
}

/// Adds the line of a node of this kind and with this name to the block, up to its content. That comes behind it, as a whole
/// or in parts, by `push_escaped`. A node without a content has a line of its own, by `push_node_line`.
///
/// Errors: `NoMemory`. The first of these bytes may then stand behind what the block had.
pub fn push_line_start(block: &mut Bytes, kind: Kind, name: &[u8]) -> Result<(), NoMemory>
    ensures ok { OnOk result (block.new ≡ block.old ++ line_start kind name.now) }
    ensures prefix { (n : ℕ) × (block.new ≡ block.old ++ take n (line_start kind name.now)) }
{
    match kind {
        Kind::Doc => block.extend_from_slice(b"#doc"),
        Kind::Element => push_name(block, b'(', name),
        Kind::Attribute => push_name_before_content(block, b'A', name),
        Kind::Text => block.push(b'-'),
        Kind::Instruction => push_name_before_content(block, b'?', name),
    }
}

// Adds a byte, a name behind it, and a space.
fn push_name_before_content(block: &mut Bytes, before: u8, name: &[u8]) -> Result<(), NoMemory>
    ensures ok { OnOk result (block.new ≡ block.old ++ before ∷ name.now ++ 32 ∷ []) }
    ensures prefix { (n : ℕ) × (block.new ≡ block.old ++ take n (before ∷ name.now ++ 32 ∷ [])) }
{
    push_name(block, before, name)?;
    block.push(b' ')?;
    Ok(())
}

// Adds a byte and a name behind it.
fn push_name(block: &mut Bytes, before: u8, name: &[u8]) -> Result<(), NoMemory>
    ensures ok { OnOk result (block.new ≡ block.old ++ before ∷ name.now) }
    ensures prefix { (n : ℕ) × (block.new ≡ block.old ++ take n (before ∷ name.now)) }
{
    block.push(before)?;
    block.extend_from_slice(name)?;
    Ok(())
}

// Adds a byte and a content behind it, with its escapes.
fn push_content(block: &mut Bytes, before: u8, content: &[u8]) -> Result<(), NoMemory>
    ensures ok { OnOk result (block.new ≡ block.old ++ before ∷ escaped content.now) }
    ensures prefix { (n : ℕ) × (block.new ≡ block.old ++ take n (before ∷ escaped content.now)) }
{
    block.push(before)?;
    push_escaped(block, content)
}

/// Adds a content, or a part of one, with its escapes.
///
/// Errors: `NoMemory`. The first of these bytes may then stand behind what the block had.
pub fn push_escaped(block: &mut Bytes, content: &[u8]) -> Result<(), NoMemory>
    ensures ok { OnOk result (block.new ≡ block.old ++ escaped content.now) }
    ensures prefix { (n : ℕ) × (block.new ≡ block.old ++ take n (escaped content.now)) }
{
    let mut rest = content;
    loop {
        let (stretch, others) = rest.split_at(scan::unmarked_len::<Escaped>(rest));
        block.extend_from_slice(stretch)?;
        let Some((first, after)) = others.split_first() else {
            return Ok(());
        };
        push_escape(block, *first)?;
        rest = after;
    }
}

// Adds one byte of a content.
fn push_escape(block: &mut Bytes, byte: u8) -> Result<(), NoMemory>
    ensures ok { OnOk result (block.new ≡ block.old ++ escape byte) }
    ensures err { OnErr result (block.new ≡ block.old) }
{
    match byte {
        b'\n' => block.extend_from_slice(b"\\n"),
        b'\t' => block.extend_from_slice(b"\\t"),
        b'\r' => block.extend_from_slice(b"\\r"),
        b'\\' => block.extend_from_slice(b"\\\\"),
        _ => block.push(byte),
    }
}
