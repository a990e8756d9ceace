// One line alone, as a node.
ghost use Rattle.std.specs.Prelude.{◌≡◌, None, Some, IfOk, IfErr};
ghost use Rattle.nx_pyx.specs.Event.{Event, event_of};
ghost use Rattle.nx_pyx.specs.Fault.{fault_at};
ghost use Rattle.nx_pyx.specs.Line.{event_in, node_of, event_fault, node_line_fault, FailsAlone};

use crate::line::{Line, parse, unescaped};
use crate::{PyxError, PyxFault, ReadError};
use nx_tree::{Bytes, Kind, NoMemory, Node};
use std::alloc::Global;

/// Reads one line, without its line end, as a node without children: an element for a start.
///
/// Errors: `Pyx` for line 1, where the first of these applies: `BadCode`, `LongLine`, `BadName`, and
/// `BadNesting` for an end; `Memory`.
pub fn line_node(alloc: Global, line: &[u8]) -> Result<Node, ReadError>
    ensures ok { IfOk result (λ node. (e : Event) × (event_of line.now ≡ Some e) × (node_line_fault line.now ≡ None) × (node ≡ node_of e)) }
    ensures err { IfErr result (FailsAlone (node_line_fault line.now)) }
{
    let Some(found) = parse(line) else {
        return Err(error(PyxFault::BadCode));
    };
    if let Some(fault) = fault(&found) {
        return Err(error(fault));
    }
    Ok(node(alloc, &found)?)
}

// The fault of what a line says, where it is to make a node.
fn fault(found: &Line<'_>) -> Option<PyxFault>
    ensures { result ≡ event_fault (event_in found.now) }
{
    if found.is_long() {
        return Some(PyxFault::LongLine);
    }
    if found.is_misnamed() {
        return Some(PyxFault::BadName);
    }
    match found {
        Line::End(_) => Some(PyxFault::BadNesting),
        _ => None,
    }
}

// The fault of the first line.
fn error(fault: PyxFault) -> ReadError
    ensures { FailsAlone (Some fault) result }
{
    ReadError::Pyx(PyxError { line: 1, fault })
}

// The node that a line says, or the element that it starts or ends.
fn node(alloc: Global, found: &Line<'_>) -> Result<Node, NoMemory>
    ensures { IfOk result (λ node. node ≡ node_of (event_in found.now)) }
{
    let none: &[u8] = &[];
    let (kind, name, content) = match *found {
        Line::Start(name) | Line::End(name) => (Kind::Element, name, none),
        Line::Attribute(name, content) => (Kind::Attribute, name, content),
        Line::Text(content) => (Kind::Text, none, content),
        Line::Instruction(name, content) => (Kind::Instruction, name, content),
    };
    Ok(Node {
        kind,
        name: Bytes::from_slice(alloc, name)?,
        content: unescaped(alloc, content)?,
    })
}
