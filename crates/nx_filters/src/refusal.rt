// The line that refuses an input.
ghost use Rattle.std.specs.Prelude.{◌≡◌, IfOk, string_bytes};
ghost use Rattle.nx_filters.specs.Refusal.{field_word, parts_line, bounds_line, fault_line, heavy_line, refusal_line};

use nx_bounds::{BoundsError, Field};
use nx_parts::PartsError;
use nx_pyx::{PyxError, push_number, push_path};
use nx_tree::{Bytes, NoMemory, Path};
use std::alloc::{AllocError, Global};

// Why an input is refused.
#[derive(Drop)]
pub enum Refusal {
    // It says no document.
    Pyx(PyxError),
    // A node of its document alone weighs more than a part may, the first one in document order.
    TooHeavy { path: Path, weight: u32 },
    // What it says of a document isn't certified, or is no plan.
    Bounds(BoundsError),
}

// The line that says why the input is refused. It is empty for want of memory, which is no refusal.
pub fn refusal_line(alloc: Global, refusal: Refusal) -> Result<Bytes, NoMemory>
    ensures { IfOk result (λ line. line ≡ refusal_line refusal) }
{
    match refusal {
        Refusal::Pyx(error) => Ok(Bytes::from_vec(fault_line(alloc, error)?.into_bytes())),
        Refusal::TooHeavy { path, weight } => heavy_line(alloc, &path, weight),
        Refusal::Bounds(error) => Ok(Bytes::from_vec(bounds_line(alloc, error)?.into_bytes())),
    }
}

// The line for a fault of the document.
fn fault_line(alloc: Global, error: PyxError) -> Result<String, AllocError>
    ensures { IfOk result (λ line. string_bytes line ≡ fault_line error) }
{
    let line = error.line;
    let word = error.fault.word();
    format!(in alloc; "refused pyx {line} {word}\n")
}

// The line for a node that weighs more than a part may.
fn heavy_line(alloc: Global, path: &Path, weight: u32) -> Result<Bytes, NoMemory>
    ensures { IfOk result (λ line. line ≡ heavy_line path.now weight) }
{
    let mut line = Bytes::from_slice(alloc, b"refused too-heavy ")?;
    push_path(&mut line, path.as_slice())?;
    push_number(&mut line, b" ", u64::from(weight))?;
    line.push(b'\n')?;
    Ok(line)
}

fn bounds_line(alloc: Global, error: BoundsError) -> Result<String, AllocError>
    ensures { IfOk result (λ line. string_bytes line ≡ bounds_line error) }
{
    match error {
        BoundsError::Parts(error) => parts_line(alloc, error),
        BoundsError::WrongWeight {
            index,
            claimed,
            found,
        } => format!(in alloc; "refused weight {index} {claimed} {found}\n"),
        BoundsError::Length { bounds, nodes } => {
            format!(in alloc; "refused length {bounds} {nodes}\n")
        }
        BoundsError::Unsupported {
            node,
            field,
            claimed,
            found,
        } => {
            let word = field_word(field);
            format!(in alloc; "refused unsupported {node} {word} {claimed} {found}\n")
        }
        BoundsError::Count { intervals, bound } => {
            format!(in alloc; "refused count {intervals} {bound}\n")
        }
        BoundsError::BadPlanLine { line } => format!(in alloc; "refused plan-line {line}\n"),
        BoundsError::Memory => Ok(String::new(alloc)),
    }
}

fn parts_line(alloc: Global, error: PartsError) -> Result<String, AllocError>
    ensures { IfOk result (λ line. string_bytes line ≡ parts_line error) }
{
    match error {
        PartsError::OutOfTree { index } => format!(in alloc; "refused out-of-tree {index}\n"),
        PartsError::Overlap { index } => format!(in alloc; "refused overlap {index}\n"),
        PartsError::NoRoot => String::from_str(alloc, "refused no-root\n"),
        PartsError::Heavy { index, weight } => {
            format!(in alloc; "refused heavy {index} {weight}\n")
        }
        PartsError::Memory => Ok(String::new(alloc)),
    }
}

// The word of a number of a bound.
fn field_word(field: Field) -> &'static str
    ensures { result.now ≡ field_word field }
{
    match field {
        Field::Least => "least",
        Field::Lean => "lean",
        Field::Nearly => "nearly",
    }
}
