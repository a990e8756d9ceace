// What the lines of a script say.
use nx_matrix::Rule;
use nx_pyx::PyxError;
use nx_tree::{Bytes, Node, Path, Tree};

/// What the lines behind a `load` say.
#[derive(Drop)]
pub enum LoadBody {
    /// This document.
    Read(Tree),
    /// No document: their first fault. Its line is counted from the first of them.
    Wrong(PyxError),
}

/// What the line at the end of an `insert` says.
#[derive(Drop)]
pub enum LineBody {
    /// This node.
    Read(Node),
    /// No node: its fault, at line 1.
    Wrong(PyxError),
}

/// What the content at the end of a `retext` is.
#[derive(Drop)]
pub enum TextBody {
    /// This content.
    Read(Bytes),
    /// More bytes than a node may have: a fault at line 1.
    Wrong(PyxError),
}

/// A command. Names of documents have 1 to 255 bytes from `!` to `~`, and don't begin with `-`.
#[derive(Drop)]
pub enum Command {
    /// Keep a document under a name that is new.
    Load {
        name: Bytes,
        body: LoadBody,
    },
    /// Forget the document of that name.
    Discard {
        name: Bytes,
    },
    /// Keep the document of the old name under the new one, which is new.
    Rename {
        old: Bytes,
        new: Bytes,
    },
    /// List the documents.
    Names,
    /// Give a document's canonical text.
    Export {
        name: Bytes,
    },
    /// Put a node without children at a path.
    Insert {
        name: Bytes,
        path: Path,
        line: LineBody,
    },
    /// Take the tree at a path away.
    Delete {
        name: Bytes,
        path: Path,
    },
    /// Replace the content of the node at a path.
    Retext {
        name: Bytes,
        path: Path,
        text: TextBody,
    },
    /// Give the node at a path, and how many children it has.
    Get {
        name: Bytes,
        path: Path,
    },
    /// List the intervals in which a document is stored.
    Layout {
        name: Bytes,
    },
    /// Make the entry of the split matrix for a pair of labels. `Free` takes the pair's rule away. Each
    /// label has 1 to 1,024 bytes and is one that a node in that place may have.
    SetRule {
        rule: Rule,
    },
    /// List the rules of the split matrix.
    Rules,
    /// Empty the log.
    Checkpoint,
    /// Begin a transaction. It is none where it isn't `bare`: words stand behind the `begin`.
    Begin {
        bare: bool,
    },
    /// End a transaction.
    Commit,
    /// A line, or a `load` with its lines, that is no command.
    Bad,
}
