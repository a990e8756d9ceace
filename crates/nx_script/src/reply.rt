// What a command is answered.
use nx_lists::List;
use nx_matrix::Rules;
use nx_parts::Partitioning;
use nx_pyx::PyxError;
use nx_tree::{Bytes, Node, Path};
use nx_weights::Weights;

/// Why a command is refused.
#[derive(Drop)]
pub enum ReplyError {
    /// It is no command.
    Syntax,
    /// There is no document of that name.
    NoDocument,
    /// There is a document of that name.
    Exists,
    /// A document's lines, or the one line or the content of an edit, are faulty.
    Pyx(PyxError),
    /// There is no node at the path, or none that could be the parent of one there.
    NoNode,
    /// The node may not stand there, or may not be taken away.
    BadPlace,
    /// The element has an attribute of that name.
    Twice,
    /// The node there is of a kind that has no content.
    NoContent,
    /// The node would lie too deep.
    TooDeep,
    /// The node would be one too many.
    TooMany,
    /// A rule for one more pair of labels would be one too many.
    TooManyRules,
    /// A node would weigh more than a part may: where it stands, and its weight in slots of 8 bytes.
    TooHeavy { path: Path, weight: u32 },
    /// There may not be room for what the command would leave.
    Full,
}

/// A document's name and how many nodes it has, its root counted.
#[derive(Drop)]
pub struct DocLine {
    pub name: Bytes,
    pub nodes: u32,
}

/// A list of documents' names and sizes.
pub type DocLines = List<DocLine>;

/// The reply to a command.
#[derive(Drop)]
pub enum Reply {
    /// The command was carried out.
    Done,
    /// A document was loaded: how many nodes it has, and in how many intervals it is stored.
    Loaded {
        nodes: u32,
        intervals: u32,
    },
    /// A node without what is below it, and how many children it has.
    Shown {
        node: Node,
        children: u32,
    },
    /// The documents.
    Names(DocLines),
    /// A document's canonical text.
    Exported(Bytes),
    /// The intervals in which a document is stored, and the weight of the part of each, in slots of 8
    /// bytes. There are as many weights as intervals.
    Laid {
        parts: Partitioning,
        weights: Weights,
    },
    /// The rules of the split matrix.
    Rules(Rules),
    /// The command changed nothing, and why.
    Refused(ReplyError),
}
