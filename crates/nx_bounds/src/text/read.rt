// Plans from their texts.
ghost use Rattle.std.specs.Prelude.{◌≡◌, ◌<◌, ◌&&◌, ℕ, List, [], ◌∷◌, ◌++◌, false, true, None, Some, is_some, MatchOption, MatchResult, IfOk, IfErr, Ok, length};
ghost use Rattle.nx_parts.specs.declared.plan.Plan.{Plan};
ghost use Rattle.nx_pyx.specs.Lines.{lines};
ghost use Rattle.nx_pyx.specs.Field.{field, behind_space, is_position, value_of};
ghost use Rattle.nx_bounds.specs.PlanText.{fields, three_numbers, root_line, run_line, bound_line, plan_line, ReadsAs, IsNoPlan, IsWritable, Say, goes_on};

use super::PlanLine;
use crate::BoundsError;
use nx_parts::{Bound, Bounds, Interval, Partitioning, Plan};
use nx_pyx::{line_end, path, position, split_field, without_cr};
use nx_tree::NoMemory;
use nx_weights::Weights;
use std::alloc::Global;

// Three numbers that stand behind each other.
#[derive(Clone, Copy)]
struct Three {
    first: u32,
    second: u32,
    third: u32,
}

/// The plan that the text says: a line `root WEIGHT` or `run PATH FIRST LAST WEIGHT` for each
/// interval, and then `bound NODE LEAST LEAN NEARLY` for each node, from 0 on. An LF or a CR and an
/// LF end a line, and the last line needs none. The numbers are decimals without leading zeros, at
/// most 4,294,967,295.
///
/// Errors: `BadPlanLine` with the first line that is no such line, or is the bound of another node
/// than the next, or an interval behind a bound; `Memory`.
pub fn read_plan(alloc: Global, text: &[u8]) -> Result<Plan, BoundsError>
    ensures ok { IfOk result (λ plan. ReadsAs text.now plan) }
    ensures writable { IfOk result (λ plan. IsWritable plan) }
    ensures err { IfErr result (λ error. IsNoPlan text.now error) }

    // A text that reads as a plan is read, unless memory runs out, and as no other plan.
    ensures only { (plan : Plan) → ReadsAs text.now plan → MatchResult result (λ read. read ≡ plan) (λ error. error ≡ BoundsError.Memory) }
{
    let mut plan = Plan {
        parts: Partitioning::new(alloc),
        weights: Weights::new(alloc),
        bounds: Bounds::new(alloc),
    };
    let mut number = 0u64;
    let mut rest = text;
    while !rest.is_empty() {
        let (line, more) = split_line(rest);
        number += 1;
        if !take_line(alloc, &mut plan, line)? {
            return Err(BoundsError::BadPlanLine { line: number });
        }
        rest = more;
    }
    Ok(plan)
}

// The first line, without what ends it, and the bytes behind it.
fn split_line(text: &[u8]) -> (&[u8], &[u8])
    requires { 0 < length text.now }
    ensures lines { lines text.now ≡ result.0.now ∷ lines result.1.now }
    ensures less { length result.1.now < length text.now }
{
    match line_end(text) {
        Some(end) => (without_cr(&text[..end]), &text[end + 1..]),
        None => (without_cr(text), &[]),
    }
}

// Takes one line more into the plan, and says whether it may stand behind those that the plan has.
fn take_line(alloc: Global, plan: &mut Plan, line: &[u8]) -> Result<bool, NoMemory>
    ensures goes_on { IfOk result (λ taken. (before : List (List ℕ)) → Say before plan.old → goes_on before line.now ≡ taken) }
    ensures taken { result ≡ Ok true → (before : List (List ℕ)) → Say before plan.old → Say (before ++ line.now ∷ []) plan.new }
{
    match plan_line(alloc, line)? {
        Some(PlanLine::Part { interval, weight }) => {
            if !plan.bounds.is_empty() {
                return Ok(false);
            }
            plan.parts.push(interval)?;
            plan.weights.push(u64::from(weight))?;
            Ok(true)
        }
        Some(PlanLine::Claim { node, bound }) => {
            if node as usize != plan.bounds.len() {
                return Ok(false);
            }
            plan.bounds.push(bound)?;
            Ok(true)
        }
        None => Ok(false),
    }
}

// What a line says, if it is a line of a plan.
fn plan_line(alloc: Global, line: &[u8]) -> Result<Option<PlanLine>, NoMemory>
    ensures { IfOk result (λ said. said ≡ plan_line line.now) }
{
    let (word, others) = split_field(line);
    let Some(others) = others else {
        return Ok(None);
    };
    if word == b"root".as_slice() {
        Ok(root_line(others))
    } else if word == b"run".as_slice() {
        run_line(alloc, others)
    } else if word == b"bound".as_slice() {
        Ok(bound_line(others))
    } else {
        Ok(None)
    }
}

// What a line says whose first word is `root`, by the fields behind it.
fn root_line(others: &[u8]) -> Option<PlanLine>
    ensures { result ≡ root_line (fields others.now) }
{
    let weight = position(others)?;
    Some(PlanLine::Part {
        interval: Interval::Root,
        weight,
    })
}

// What a line says whose first word is `run`, by the fields behind it.
fn run_line(alloc: Global, others: &[u8]) -> Result<Option<PlanLine>, NoMemory>
    ensures { IfOk result (λ said. said ≡ run_line (fields others.now)) }
{
    let (text, numbers) = split_field(others);
    let Some(numbers) = numbers else {
        return Ok(None);
    };
    let Some(numbers) = three_numbers(numbers) else {
        return Ok(None);
    };
    let Some(parent) = path(alloc, text)? else {
        return Ok(None);
    };
    let interval = Interval::Run {
        parent,
        first: numbers.first,
        last: numbers.second,
    };
    Ok(Some(PlanLine::Part {
        interval,
        weight: numbers.third,
    }))
}

// What a line says whose first word is `bound`, by the fields behind it.
fn bound_line(others: &[u8]) -> Option<PlanLine>
    ensures { result ≡ bound_line (fields others.now) }
{
    let (node, numbers) = number_before(others)?;
    let numbers = three_numbers(numbers)?;
    let bound = Bound {
        least: numbers.first,
        lean: numbers.second,
        nearly: numbers.third,
    };
    Some(PlanLine::Claim { node, bound })
}

// The three numbers that the fields are, if they are three numbers.
fn three_numbers(others: &[u8]) -> Option<Three>
    ensures { result ≡ three_numbers (fields others.now) }
{
    let (first, others) = number_before(others)?;
    let (second, others) = number_before(others)?;
    let third = position(others)?;
    Some(Three {
        first,
        second,
        third,
    })
}

// The number that the first field is, if it is one, and the fields behind it, if there are any.
fn number_before(others: &[u8]) -> Option<(u32, &[u8])>
    ensures { MatchOption result ((is_some (behind_space others.now) && is_position (field others.now)) ≡ false) (λ found.
        (behind_space others.now ≡ Some found.1.now) × (is_position (field others.now) ≡ true) × (found.0 ≡ value_of (field others.now))) }
{
    let (digits, more) = split_field(others);
    let more = more?;
    let number = position(digits)?;
    Some((number, more))
}
