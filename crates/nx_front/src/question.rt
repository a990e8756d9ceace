// What a line asks for.
ghost use Rattle.std.specs.Prelude.{MatchOption, IfOk};
ghost use Rattle.nx_script.specs.declared.whole.Line.TheVariants.{Bytes};
ghost use Rattle.nx_front.specs.Finding.{AsksFor, AsksNothing};

use nx_find::{Steps, read_steps};
use nx_pyx::{is_document_name, split_field};
use nx_script::Line;
use nx_tree::{Bytes, NoMemory};
use std::alloc::Global;

// A document's name, and the steps that are asked for in it.
#[derive(Drop)]
pub struct Question {
    pub name: Bytes,
    pub steps: Steps,
}

// What the line asks for, if it asks for something.
//
// Errors: `NoMemory`.
pub fn read_question(alloc: Global, line: &Line) -> Result<Option<Question>, NoMemory>
    ensures { IfOk result (λ found. MatchOption found (AsksNothing line.now) (λ question. AsksFor line.now question.name question.steps)) }
{
    match line {
        Line::Bytes(text) => read_text(alloc, text.as_slice()),
        Line::TooLong => Ok(None),
    }
}

// ... of a line with this text.
fn read_text(alloc: Global, text: &[u8]) -> Result<Option<Question>, NoMemory>
    ensures { IfOk result (λ found. MatchOption found (AsksNothing (Bytes text.now)) (λ question. AsksFor (Bytes text.now) question.name question.steps)) }
{
    let (word, rest) = split_field(text);
    if word != b"find".as_slice() {
        return Ok(None);
    }
    let Some(rest) = rest else {
        return Ok(None);
    };
    let (name, said) = split_field(rest);
    if !is_document_name(name) {
        return Ok(None);
    }
    let Some(said) = said else {
        return Ok(None);
    };
    let Some(steps) = read_steps(alloc, said)? else {
        return Ok(None);
    };
    let name = Bytes::from_slice(alloc, name)?;
    Ok(Some(Question { name, steps }))
}
