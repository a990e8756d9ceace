// The texts of plans.
ghost use Rattle.std.specs.Prelude.{◌≡◌, ◌≤◌, ◌++◌, ◌∷◌, [], IfOk, OnOk};
ghost use Rattle.std.specs.List.{join_with_byte};
ghost use Rattle.nx_pyx.specs.Field.{greatest_position};
ghost use Rattle.nx_bounds.specs.declared.text.PlanLine.TheVariants.{Part, Claim};
ghost use Rattle.nx_bounds.specs.PlanWriter.{HasMoreBytes};
ghost use Rattle.nx_bounds.specs.PlanText.{IsWritable, ReadsAs, Fits, IntervalFits, interval_fields, line_text, plan_text};

use nx_parts::{Bound, Interval, Plan};
use nx_pyx::{push_number, push_path};
use nx_tree::{Bytes, NoMemory};
use std::alloc::Global;

/// The text of a plan, which `read_plan` reads: a line for each interval in the order of the list,
/// and then a line for the bound of each node, each with its LF.
///
/// The plan has as many weights as intervals, each at most 4,294,967,295, and no more than
/// 4,294,967,296 bounds. So has each plan that was read.
///
/// Errors: `NoMemory`.
pub fn write_plan(alloc: Global, plan: &Plan) -> Result<Bytes, NoMemory>
    requires { IsWritable plan.now }
    ensures text { IfOk result (λ text. text ≡ plan_text plan.now) }
    ensures reads { IfOk result (λ text. ReadsAs text plan.now) }
{
    let mut text = Bytes::new(alloc);
    let weights = plan.weights.as_slice();
    for (interval, weight) in plan.parts.as_slice().iter().zip(weights) {
        push_part(&mut text, interval, *weight)?;
    }
    for (node, bound) in plan.bounds.as_slice().iter().enumerate() {
        push_claim(&mut text, node as u64, bound)?;
    }
    Ok(text)
}

// Adds the line of an interval. Each number that it says fits its field, if the weight does.
pub fn push_part(text: &mut Bytes, interval: &Interval, weight: u64) -> Result<(), NoMemory>
    ensures text { OnOk result (text.new ≡ text.old ++ line_text (Part interval.now weight) ++ 10 ∷ []) }
    ensures begun { HasMoreBytes text.old text.new }
    ensures fits { OnOk result (weight ≤ greatest_position → Fits (Part interval.now weight)) }
{
    push_interval(text, interval)?;
    push_number(text, b" ", weight)?;
    text.push(b'\n')
}

// Adds the fields of an interval. Each number that they say fits its field.
fn push_interval(text: &mut Bytes, interval: &Interval) -> Result<(), NoMemory>
    ensures text { OnOk result (text.new ≡ text.old ++ join_with_byte 32 (interval_fields interval.now)) }
    ensures begun { HasMoreBytes text.old text.new }
    ensures fits { OnOk result (IntervalFits interval.now) }
{
    match interval {
        Interval::Root => text.extend_from_slice(b"root"),
        Interval::Run {
            parent,
            first,
            last,
        } => push_run(text, parent.as_slice(), *first, *last),
    }
}

// Adds the fields of an interval of these children. Each number that they say fits its field.
fn push_run(text: &mut Bytes, parent: &[u32], first: u32, last: u32) -> Result<(), NoMemory>
    ensures text { OnOk result (text.new ≡ text.old ++ join_with_byte 32 (interval_fields (Interval.Run parent.now first last))) }
    ensures begun { HasMoreBytes text.old text.new }
    ensures fits { OnOk result (IntervalFits (Interval.Run parent.now first last)) }
{
    text.extend_from_slice(b"run ")?;
    push_path(text, parent)?;
    push_number(text, b" ", u64::from(first))?;
    push_number(text, b" ", u64::from(last))
}

// Adds the line of a node's bound. Each number that it says fits its field, if the node's does.
pub fn push_claim(text: &mut Bytes, node: u64, bound: &Bound) -> Result<(), NoMemory>
    ensures text { OnOk result (text.new ≡ text.old ++ line_text (Claim node bound.now) ++ 10 ∷ []) }
    ensures begun { HasMoreBytes text.old text.new }
    ensures fits { OnOk result (node ≤ greatest_position → Fits (Claim node bound.now)) }
{
    let Bound {
        least,
        lean,
        nearly,
    } = *bound;
    push_number(text, b"bound ", node)?;
    push_number(text, b" ", u64::from(least))?;
    push_number(text, b" ", u64::from(lean))?;
    push_number(text, b" ", u64::from(nearly))?;
    text.push(b'\n')
}
