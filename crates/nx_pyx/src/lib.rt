//! PYX, a notation of XML with one event a line: read as it comes in pieces, and written.
//!
//! `Reader` takes the stream in any pieces and gives the document that its lines say, or the fault
//! of its first faulty line; `line_node` does so for one line. `write` gives a document's canonical
//! text, and `Writer` the same in blocks; `node_line` gives one node's line, and `push_line_start`
//! and `push_escaped` add one in parts. `split_field`, `number`,
//! `path` and `is_document_name` read the fields of the lines that go with such texts, and
//! `push_number` and `push_path` write them. What a line is, what it says and which fault it has stands in `specs/`,
//! apart from the code, and `laws` says what holds of that.
#![tactic(auto)]

mod builder;
mod document_name;
mod error;
mod fields;
pub mod laws;
mod line;
mod names;
mod one_line;
mod paths;
mod reader;
mod scan;
mod writer;

pub use document_name::is_document_name;
pub use error::{PyxError, PyxFault, ReadError};
pub use fields::{number, push_number, split_field};
pub use line::{is_name, unescaped, unescaped_len, without_cr};
pub use one_line::line_node;
pub use paths::{path, position, push_path};
pub use reader::{Reader, line_end};
pub use writer::{
    Writer, node_line, push_escaped, push_line_start, push_node_line, push_parts_line, write,
    write_tree,
};
