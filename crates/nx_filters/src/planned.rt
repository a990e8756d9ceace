// The first phase of `verify`: the document, and the text of the plan behind its dot.
ghost use Rattle.std.specs.Prelude.{◌≡◌, ◌≤◌, ℕ, List, ◌++◌, length, take, IfOk, IfErr, IfSome, MatchOption};
ghost use Rattle.nx_host.specs.Phase.{TakesAlone};
ghost use Rattle.nx_script.specs.Body.{AwaitsDot, IsEndedBy};
ghost use Rattle.nx_filters.specs.Planned.{IsPlanned, HasLines, HasDot, HasDocumentBeforeDot, StopsWhole};
ghost use Rattle.nx_filters.specs.Consumer.{StopsAt};
ghost use Rattle.nx_filters.specs.Outcome.{EndsWhole, StopsBy, TakesFew};
ghost use Rattle.nx_filters.specs.Verify.{ShowsClaim, verify};

use crate::consumer::{Consumer, feed};
use crate::refusal::Refusal;
use crate::take_error::TakeError;
use nx_host::{Disk, Host, Input};
use nx_script::{Body, LoadBody};
use nx_tree::{Bytes, NoMemory, Tree};
use std::alloc::Global;

// A document and the plan that an input gives of it.
#[derive(Drop)]
pub struct Planned {
    pub tree: Tree,
    // The text of a plan.
    pub plan: Bytes,
}

// The lines of a document, and what has come behind their dot.
#[derive(Drop)]
struct Lines {
    body: Body,
    behind: Bytes,
}

impl Consumer for Lines {
    ghost has_read = { λ lines taken. HasLines lines.body lines.behind taken };

    ghost has_enough = { λ lines taken. HasDot lines.body lines.behind taken };

    ghost shows = { ShowsClaim };

    fn take(&mut self, block: &[u8]) -> Result<bool, TakeError> {
        if let Some(start) = take_lines(&mut self.body, block)? {
            self.behind.extend_from_slice(&block[start..])?;
            return Ok(false);
        }
        match self.body.fault() {
            Some(error) => Err(TakeError::Refused(Refusal::Pyx(error))),
            None => Ok(true),
        }
    }

    ghost shows_none = { λ lines taken read. read.shows };
}

impl Consumer for Planned {
    ghost has_read = { λ planned taken. HasDocumentBeforeDot planned.tree planned.plan taken };

    ghost has_enough = { λ _ _. ⊥ };

    ghost shows = { ShowsClaim };

    fn take(&mut self, block: &[u8]) -> Result<bool, TakeError> {
        self.plan.extend_from_slice(block)?;
        Ok(true)
    }

    ghost shows_none = { λ planned taken read. read.shows };
}

// Reads the whole input: the lines of a document, and what stands behind their dot.
pub fn read_planned<H: Host>(alloc: Global, host: &mut H) -> Result<Planned, TakeError>
    ensures ok { IfOk result (λ planned. (taken : List ℕ) × EndsWhole taken (H.beside host.old).input (H.beside host.new).input × IsPlanned planned.tree planned.plan taken) }
    ensures err { IfErr result (λ stop. (k : ℕ) → StopsBy (verify k) stop (H.beside host.old) (H.beside host.new)) }
    ensures bounded { TakesFew (H.beside host.old).input (H.beside host.new).input }
    ensures alone { TakesAlone ⟦<H as Disk>⟧ host.old host.new }
{
    let mut input = Input::new(alloc)?;
    let mut lines = Lines {
        body: Body::new(alloc)?,
        behind: Bytes::new(alloc),
    };
    let ended = feed(host, &mut input, &mut lines)?;
    let mut planned = into_planned(lines)?;
    if ended {
        return Ok(planned);
    }
    feed(host, &mut input, &mut planned)?;
    Ok(planned)
}

// Takes the lines of a document, and says where the bytes behind their dot begin, if it comes.
fn take_lines(body: &mut Body, bytes: &[u8]) -> Result<Option<usize>, NoMemory>
    ensures inside { IfOk result (λ start. IfSome start (λ n. n ≤ length bytes.now)) }
    ensures stands { IfOk result (λ start. (s : List ℕ) → AwaitsDot body.old s → MatchOption start (AwaitsDot body.new (s ++ bytes.now))
        (λ n. IsEndedBy body.new (s ++ take n bytes.now))) }
{
    let mut start = 0;
    while start < bytes.len() {
        let (len, ended) = body.take(&bytes[start..])?;
        start += len;
        if ended {
            return Ok(Some(start));
        }
    }
    Ok(None)
}

// The document that the lines say, and the text that has come behind their dot.
fn into_planned(lines: Lines) -> Result<Planned, TakeError>
    ensures whole { IfOk result (λ planned. (s : List ℕ) → HasLines lines.body lines.behind s → IsPlanned planned.tree planned.plan s) }
    ensures faulty { IfErr result (λ stop. (s : List ℕ) → HasLines lines.body lines.behind s → StopsWhole stop s) }
    ensures dotted { IfOk result (λ planned. (s : List ℕ) → HasDot lines.body lines.behind s → HasDocumentBeforeDot planned.tree planned.plan s) }
    ensures refused { IfErr result (λ stop. (s : List ℕ) → HasDot lines.body lines.behind s → StopsAt ShowsClaim stop s) }
{
    let Lines { body, behind } = lines;
    match body.finish()? {
        LoadBody::Read(tree) => Ok(Planned { tree, plan: behind }),
        LoadBody::Wrong(error) => Err(TakeError::Refused(Refusal::Pyx(error))),
    }
}
