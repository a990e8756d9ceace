// Steps read from text.
ghost use Rattle.std.specs.Prelude.{◌≡◌, ◌≢◌, ◌≤◌, ◌<◌, ℕ, List, ◌∷◌, false, MatchOption, IfOk, length, slice_index};
ghost use Rattle.nx_pyx.specs.Field.{begins_with};
ghost use Rattle.nx_reach.specs.declared.step.Step.{Step};
ghost use Rattle.nx_reach.specs.Text.{SaysSteps, SplitsStep, step_of, slashed};

use crate::step::{MOST_STEPS, Step, Steps};
use nx_lists::{List, NoMemory};
use nx_matrix::is_child_label;
use nx_tree::Bytes;
use std::alloc::Global;

/// The steps that the text says: 1 to 64, each a slash, or two for any depth, and a label of at most
/// 1,024 bytes, which is `#text`, a name, or a name behind `@` or `?`. `None` exactly where it says none.
///
/// Errors: `NoMemory`.
pub fn read_steps(alloc: Global, text: &[u8]) -> Result<Option<Steps>, NoMemory>
    ensures { IfOk result (λ found. MatchOption found ((steps : List Step) → SaysSteps text.now steps → ⊥) (λ steps. SaysSteps text.now steps)) }
{
    let mut steps: List<Step> = List::new(alloc);
    let mut rest = text;
    while !rest.is_empty() {
        let Some(view) = split_step(rest) else {
            return Ok(None);
        };
        if !is_child_label(view.name) {
            return Ok(None);
        }
        if steps.len() == MOST_STEPS {
            return Ok(None);
        }
        steps.push(make_step(alloc, view.is_below, view.name)?)?;
        rest = view.more;
    }
    if steps.is_empty() {
        return Ok(None);
    }
    Ok(Some(Steps::from_list(steps)))
}

fn make_step(alloc: Global, is_below: bool, name: &[u8]) -> Result<Step, NoMemory>
    ensures { IfOk result (λ step. step ≡ step_of is_below name.now) }
{
    let label = Bytes::from_slice(alloc, name)?;
    if is_below {
        Ok(Step::Below { label })
    } else {
        Ok(Step::Child { label })
    }
}

// A step's text: whether it has two slashes, what stands before the next slash, and the rest.
#[derive(Clone, Copy)]
struct StepView<'a> {
    is_below: bool,
    name: &'a [u8],
    more: &'a [u8],
}

fn split_step<'a>(text: &'a [u8]) -> Option<StepView<'a>>
    ensures { MatchOption result (begins_with 47 text.now ≡ false) (λ view. SplitsStep text.now view.is_below view.name.now view.more.now) }
{
    let behind = after_slash(text)?;
    match after_slash(behind) {
        Some(named) => Some(split_label(true, named)),
        None => Some(split_label(false, behind)),
    }
}

// The label at the beginning, behind one slash or two.
fn split_label<'a>(is_below: bool, named: &'a [u8]) -> StepView<'a>
    ensures splits { (text : List ℕ) → text ≡ slashed is_below named.now → (is_below ≡ false → begins_with 47 named.now ≡ false) → SplitsStep text result.is_below result.name.now result.more.now }
    ensures below { result.is_below ≡ is_below }
{
    let end = label_end(named);
    StepView {
        is_below,
        name: &named[..end],
        more: &named[end..],
    }
}

fn after_slash(text: &[u8]) -> Option<&[u8]>
    ensures { MatchOption result (begins_with 47 text.now ≡ false) (λ rest. text.now ≡ 47 ∷ rest.now) }
{
    match text.split_first() {
        Some((first, rest)) => { if *first == b'/' { Some(rest) } else { None } }
        None => None,
    }
}

// Where the first slash stands, or the length where there is none.
fn label_end(bytes: &[u8]) -> usize
    ensures within { result ≤ length bytes.now }
    ensures before { (k : ℕ) → k < result → slice_index bytes.now k ≢ 47 }
    ensures found { result < length bytes.now → slice_index bytes.now result ≡ 47 }
{
    for (i, b) in bytes.iter().enumerate() {
        if *b == b'/' {
            return i;
        }
    }
    bytes.len()
}
