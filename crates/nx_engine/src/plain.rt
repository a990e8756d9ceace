// Documents as plain trees in memory.
ghost use Rattle.std.specs.Prelude.{◌≡◌, ◌==◌, ◌↔◌, IsErr, Ok, Err, ◌+◌, ◌≤◌, ◌∷◌, [], ◌++◌, length, IfOk, OnErr, OnOk, Some, None, MatchOption, IfSome, option_and_then, nat_lt};
ghost use Rattle.std.specs.Result.{result_err};
ghost use Rattle.std.specs.FinMap.{empty, get, insert, remove, contains_key, entries};
ghost use Rattle.nx_tree.specs.Document.{IsDocument, IsNode, longest_node};
ghost use Rattle.nx_script.specs.Commands.{CanCome};
ghost use Rattle.nx_engine.specs.Step.{reply_to, documents_after, name_at, done_unless, worded};

use nx_lists::LONGEST_NODE;
use nx_pyx::{PyxError, PyxFault, write};
use nx_script::{Command, DocLine, DocLines, LineBody, LoadBody, Reply, ReplyError, TextBody};
use nx_tree::{
    Bytes, NoMemory, Node, Path, Tree, TreeError, copy, count, delete_at, insert_at, node_at,
    retext_at,
};
use std::alloc::Global;
use std::collections::BTreeMap;
use std::marker::Model;

/// Documents by their names, kept as plain trees. Contracts see a finite map, in the order of the
/// names' bytes.
#[derive(Drop)]
pub struct Plain {
    alloc: Global,
    documents: BTreeMap<Vec<u8>, Tree>,
}

impl Model for Plain {
    ghost use Rattle.nx_engine.specs.Documents.{Documents};
    ghost use Rattle.nx_engine.specs.Plain.{documents_in, documents_code, AreDocuments};

    ghost Value = { Documents };

    ghost coded = { documents_code };

    ghost view = { λ a. documents_in a.documents };

    ghost invariant = { λ a. AreDocuments a.documents };
}

impl Plain {
    /// No documents. It takes no memory.
    pub fn new(alloc: Global) -> Plain
        ensures { result ≡ empty }
    {
        Plain {
            alloc,
            documents: BTreeMap::new(alloc),
        }
    }

    /// Carries a command out, and gives its reply. A command that is refused changes nothing.
    ///
    /// The command is one that a script can give: a tree in it is a document, a node in it may stand
    /// in one, a new content has at most as many bytes as a node may have, and a rule is for labels of
    /// a parent and a child. Documents in memory have no intervals, no rules and no log: what asks for
    /// them is refused as no command.
    ///
    /// Errors: `NoMemory`. The documents are as they were then.
    pub fn apply(&mut self, command: Command) -> Result<Reply, NoMemory>
        requires { CanCome command }
        ensures reply { IfOk result (λ reply. reply ≡ reply_to self.old command) }
        ensures ok { OnOk result (self.new ≡ documents_after self.old command) }
        ensures refused { IfOk result (λ reply. (e : ReplyError) → reply ≡ Reply.Refused e → self.new ≡ self.old) }
        ensures err { OnErr result (self.new ≡ self.old) }
    {
        match command {
            Command::Load { name, body } => self.load(name, body),
            Command::Discard { name } => Ok(self.discard(&name)),
            Command::Rename { old, new } => self.rename(&old, new),
            Command::Names => self.names(),
            Command::Export { name } => self.export(&name),
            Command::Insert { name, path, line } => self.insert(&name, &path, line),
            Command::Delete { name, path } => self.delete(&name, &path),
            Command::Retext { name, path, text } => self.retext(&name, &path, text),
            Command::Get { name, path } => self.get(&name, &path),
            Command::Layout { .. }
            | Command::SetRule { .. }
            | Command::Rules
            | Command::Checkpoint
            | Command::Begin { .. }
            | Command::Commit
            | Command::Bad => Ok(Reply::Refused(ReplyError::Syntax)),
        }
    }

    /// The document of that name, if there is one.
    pub fn document(&self, name: &[u8]) -> Option<&Tree>
        ensures found { MatchOption result (get self.now name.now ≡ None) (λ tree. get self.now name.now ≡ Some tree.now) }
        ensures document { IfSome result (λ tree. IsDocument tree.now) }
    {
        self.documents.get(name)
    }

    fn load(&mut self, name: Bytes, body: LoadBody) -> Result<Reply, NoMemory>
        requires { CanCome (Command.Load name body) }
        ensures reply { IfOk result (λ reply. reply ≡ reply_to self.old (Command.Load name body)) }
        ensures ok { OnOk result (self.new ≡ documents_after self.old (Command.Load name body)) }
        ensures err { OnErr result (self.new ≡ self.old) }
    {
        if self.documents.contains_key(name.as_slice()) {
            return Ok(Reply::Refused(ReplyError::Exists));
        }
        match body {
            LoadBody::Wrong(error) => Ok(Reply::Refused(ReplyError::Pyx(error))),
            LoadBody::Read(tree) => {
                let nodes = count(&tree);
                self.documents.insert(name.into_vec(), tree)?;
                Ok(Reply::Loaded {
                    nodes,
                    intervals: 0,
                })
            }
        }
    }

    fn discard(&mut self, name: &Bytes) -> Reply
        ensures reply { result ≡ reply_to self.old (Command.Discard name.now) }
        ensures documents { self.new ≡ documents_after self.old (Command.Discard name.now) }
    {
        match self.documents.remove(name.as_slice()) {
            Some(_) => Reply::Done,
            None => Reply::Refused(ReplyError::NoDocument),
        }
    }

    fn rename(&mut self, old: &Bytes, new: Bytes) -> Result<Reply, NoMemory>
        ensures reply { IfOk result (λ reply. reply ≡ reply_to self.old (Command.Rename old.now new)) }
        ensures ok { OnOk result (self.new ≡ documents_after self.old (Command.Rename old.now new)) }
        ensures err { OnErr result (self.new ≡ self.old) }
    {
        let Some(tree) = self.documents.get(old.as_slice()) else {
            return Ok(Reply::Refused(ReplyError::NoDocument));
        };
        if self.documents.contains_key(new.as_slice()) {
            let already = Reply::Refused(ReplyError::Exists);
            return Ok(already);
        }
        // A copy, so that the documents stay where no memory is left for the new name.
        let Ok(copied) = copy(self.alloc, tree) else {
            return Err(NoMemory);
        };
        self.documents.insert(new.into_vec(), copied)?;
        self.documents.remove(old.as_slice());
        Ok(Reply::Done)
    }

    fn names(&self) -> Result<Reply, NoMemory>
        ensures { IfOk result (λ reply. reply ≡ reply_to self.now Command.Names) }
    {
        let mut lines = DocLines::new(self.alloc);
        for (name, tree) in &self.documents {
            lines.push(DocLine {
                name: Bytes::from_slice(self.alloc, name.as_slice())?,
                nodes: count(tree),
            })?;
        }
        Ok(Reply::Names(lines))
    }

    fn export(&self, name: &Bytes) -> Result<Reply, NoMemory>
        ensures { IfOk result (λ reply. reply ≡ reply_to self.now (Command.Export name.now)) }
    {
        match self.documents.get(name.as_slice()) {
            Some(tree) => Ok(Reply::Exported(write(self.alloc, tree)?)),
            None => Ok(Reply::Refused(ReplyError::NoDocument)),
        }
    }

    fn insert(&mut self, name: &Bytes, path: &Path, line: LineBody) -> Result<Reply, NoMemory>
        requires { CanCome (Command.Insert name.now path.now line) }
        ensures reply { IfOk result (λ reply. reply ≡ reply_to self.old (Command.Insert name.now path.now line)) }
        ensures ok { OnOk result (self.new ≡ documents_after self.old (Command.Insert name.now path.now line)) }
        ensures err { OnErr result (self.new ≡ self.old) }
    {
        let Some(tree) = self.documents.get_mut(name.as_slice()) else {
            return Ok(Reply::Refused(ReplyError::NoDocument));
        };
        let node = match line {
            LineBody::Read(node) => node,
            LineBody::Wrong(error) => return Ok(Reply::Refused(ReplyError::Pyx(error))),
        };
        done(insert_at(self.alloc, tree, path.as_slice(), node))
    }

    fn delete(&mut self, name: &Bytes, path: &Path) -> Result<Reply, NoMemory>
        ensures reply { IfOk result (λ reply. reply ≡ reply_to self.old (Command.Delete name.now path.now)) }
        ensures ok { OnOk result (self.new ≡ documents_after self.old (Command.Delete name.now path.now)) }
        ensures err { OnErr result (self.new ≡ self.old) }
    {
        let Some(tree) = self.documents.get_mut(name.as_slice()) else {
            return Ok(Reply::Refused(ReplyError::NoDocument));
        };
        done(delete_at(tree, path.as_slice()))
    }

    fn retext(&mut self, name: &Bytes, path: &Path, text: TextBody) -> Result<Reply, NoMemory>
        requires { CanCome (Command.Retext name.now path.now text) }
        ensures reply { IfOk result (λ reply. reply ≡ reply_to self.old (Command.Retext name.now path.now text)) }
        ensures ok { OnOk result (self.new ≡ documents_after self.old (Command.Retext name.now path.now text)) }
        ensures err { OnErr result (self.new ≡ self.old) }
    {
        let Some(tree) = self.documents.get_mut(name.as_slice()) else {
            return Ok(Reply::Refused(ReplyError::NoDocument));
        };
        let content = match text {
            TextBody::Read(content) => content,
            TextBody::Wrong(error) => return Ok(Reply::Refused(ReplyError::Pyx(error))),
        };
        if is_long(tree, path, content.len()) {
            let error = PyxError {
                line: 1,
                fault: PyxFault::LongLine,
            };
            return Ok(Reply::Refused(ReplyError::Pyx(error)));
        }
        done(retext_at(tree, path.as_slice(), content))
    }

    fn get(&self, name: &Bytes, path: &Path) -> Result<Reply, NoMemory>
        ensures { IfOk result (λ reply. reply ≡ reply_to self.now (Command.Get name.now path.now)) }
    {
        let Some(tree) = self.documents.get(name.as_slice()) else {
            return Ok(Reply::Refused(ReplyError::NoDocument));
        };
        match node_at(tree, path.as_slice()) {
            Ok(found) => Ok(Reply::Shown {
                node: copy_of(self.alloc, &found.node)?,
                children: found.children.len() as u32,
            }),
            Err(_) => Ok(Reply::Refused(ReplyError::NoNode)),
        }
    }
}

// The reply to an edit.
fn done(edit: Result<(), TreeError>) -> Result<Reply, NoMemory>
    ensures reply { IfOk result (λ reply. reply ≡ done_unless (option_and_then worded (result_err edit))) }
    ensures memory { IsErr result ↔ (edit ≡ Err TreeError.Memory) }
{
    let error = match edit {
        Ok(()) => return Ok(Reply::Done),
        Err(TreeError::Memory) => return Err(NoMemory),
        Err(TreeError::NoNode) => ReplyError::NoNode,
        Err(TreeError::BadPlace) => ReplyError::BadPlace,
        Err(TreeError::Twice) => ReplyError::Twice,
        Err(TreeError::NoContent) => ReplyError::NoContent,
        Err(TreeError::TooDeep) => ReplyError::TooDeep,
        Err(TreeError::TooMany) => ReplyError::TooMany,
    };
    Ok(Reply::Refused(error))
}

// Whether the node at the path, with as many bytes of content, would have too many. Where there is
// no node, its name counts as empty.
fn is_long(tree: &Tree, path: &Path, len: usize) -> bool
    requires { IsDocument tree.now }
    ensures { result ≡ nat_lt longest_node (length (name_at path.now tree.now) + len) }
{
    let name = match node_at(tree, path.as_slice()) {
        Ok(found) => found.node.name.len(),
        Err(_) => 0,
    };
    name.saturating_add(len) > LONGEST_NODE
}

// A copy of a node.
fn copy_of(alloc: Global, node: &Node) -> Result<Node, NoMemory>
    ensures { IfOk result (λ copied. copied ≡ node.now) }
{
    Ok(Node {
        kind: node.kind,
        name: Bytes::from_slice(alloc, node.name.as_slice())?,
        content: Bytes::from_slice(alloc, node.content.as_slice())?,
    })
}
