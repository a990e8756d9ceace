// The text of a reply.
ghost use Rattle.std.specs.Prelude.{◌≡◌, ℕ, List, ◌++◌, OnOk, OnErr, IfOk};
ghost use Rattle.std.specs.Prelude.{codes};
ghost use Rattle.std.specs.List.{flat_map, zip};
ghost use Rattle.nx_script.specs.Reply.{cause, doc_line, interval_text, interval_line, rule_line, reply_text, answered_text};

use crate::rule::entry_word;
use crate::{Answer, DocLine, DocLines, Reply, ReplyError};
use nx_matrix::{Rule, Rules};
use nx_parts::{Interval, Partitioning};
use nx_pyx::{PyxError, push_node_line, push_number, push_path};
use nx_tree::{Bytes, NoMemory};
use nx_weights::Weights;
use std::alloc::Global;

/// The text of a reply: its lines, each with its LF.
///
/// Errors: `NoMemory`.
pub fn write_reply(alloc: Global, reply: &Reply) -> Result<Bytes, NoMemory>
    ensures { IfOk result (λ text. text ≡ reply_text reply.now) }
{
    let mut text = Bytes::new(alloc);
    push_text(&mut text, reply)?;
    Ok(text)
}

/// Adds the text of a reply to the block. Want of memory leaves the block as it was.
///
/// Errors: `NoMemory`.
pub fn push_reply(block: &mut Bytes, reply: &Reply) -> Result<(), NoMemory>
    ensures ok { OnOk result (block.new ≡ block.old ++ reply_text reply.now) }
    ensures err { OnErr result (block.new ≡ block.old) }
{
    let len = block.len();
    let pushed = push_text(block, reply);
    if pushed.is_err() {
        block.truncate(len);
    }
    pushed
}

/// The text of an answer: its lines, each with its LF.
///
/// Errors: `NoMemory`.
pub fn write_answer(alloc: Global, answer: &Answer) -> Result<Bytes, NoMemory>
    ensures { IfOk result (λ text. text ≡ answered_text answer.now) }
{
    let mut text = Bytes::new(alloc);
    push_answer_text(&mut text, answer)?;
    Ok(text)
}

/// Adds the text of an answer to the block. Want of memory leaves the block as it was.
///
/// Errors: `NoMemory`.
pub fn push_answer(block: &mut Bytes, answer: &Answer) -> Result<(), NoMemory>
    ensures ok { OnOk result (block.new ≡ block.old ++ answered_text answer.now) }
    ensures err { OnErr result (block.new ≡ block.old) }
{
    let len = block.len();
    let pushed = push_answer_text(block, answer);
    if pushed.is_err() {
        block.truncate(len);
    }
    pushed
}

// Adds the text of an answer. Want of memory may leave a part of it behind what the block had.
fn push_answer_text(block: &mut Bytes, answer: &Answer) -> Result<(), NoMemory>
    ensures ok { OnOk result (block.new ≡ block.old ++ answered_text answer.now) }
    ensures prefix { (bytes : List ℕ) × (block.new ≡ block.old ++ bytes) }
{
    match answer {
        Answer::One(reply) => push_text(block, reply),
        Answer::All(replies) => push_replies(block, replies.as_slice()),
        Answer::RefusedAt { number, error } => {
            push_number(block, b"error at ", *number)?;
            block.push(b' ')?;
            push_cause(block, error)?;
            block.push(b'\n')
        }
    }
}

// Adds the texts of replies, and a dot.
fn push_replies(block: &mut Bytes, replies: &[Reply]) -> Result<(), NoMemory>
    ensures ok { OnOk result (block.new ≡ block.old ++ (flat_map reply_text replies.now ++ codes ".\n")) }
    ensures prefix { (bytes : List ℕ) × (block.new ≡ block.old ++ bytes) }
{
    for reply in replies {
        push_text(block, reply)?;
    }
    block.extend_from_slice(b".\n")
}

// Adds the text of a reply. Want of memory may leave a part of it behind what the block had.
fn push_text(block: &mut Bytes, reply: &Reply) -> Result<(), NoMemory>
    ensures ok { OnOk result (block.new ≡ block.old ++ reply_text reply.now) }
    ensures prefix { (bytes : List ℕ) × (block.new ≡ block.old ++ bytes) }
{
    match reply {
        Reply::Done => block.extend_from_slice(b"ok\n"),
        Reply::Loaded { nodes, intervals } => {
            push_number(block, b"ok ", u64::from(*nodes))?;
            push_number(block, b" ", u64::from(*intervals))?;
            block.push(b'\n')
        }
        Reply::Shown { node, children } => {
            push_number(block, b"node ", u64::from(*children))?;
            block.push(b' ')?;
            push_node_line(block, node)?;
            block.push(b'\n')
        }
        Reply::Names(docs) => push_docs(block, docs),
        Reply::Exported(text) => {
            block.extend_from_slice(text.as_slice())?;
            block.extend_from_slice(b".\n")
        }
        Reply::Laid { parts, weights } => push_parts(block, parts, weights),
        Reply::Rules(rules) => push_rules(block, rules),
        Reply::Refused(error) => {
            block.extend_from_slice(b"error ")?;
            push_cause(block, error)?;
            block.push(b'\n')
        }
    }
}

// Adds the lines of documents, and a dot.
fn push_docs(block: &mut Bytes, docs: &DocLines) -> Result<(), NoMemory>
    ensures ok { OnOk result (block.new ≡ block.old ++ (flat_map doc_line docs.now ++ codes ".\n")) }
    ensures prefix { (bytes : List ℕ) × (block.new ≡ block.old ++ bytes) }
{
    for line in docs.as_slice() {
        push_doc(block, line)?;
    }
    block.extend_from_slice(b".\n")
}

// Adds the line of a document.
fn push_doc(block: &mut Bytes, line: &DocLine) -> Result<(), NoMemory>
    ensures ok { OnOk result (block.new ≡ block.old ++ doc_line line.now) }
    ensures prefix { (bytes : List ℕ) × (block.new ≡ block.old ++ bytes) }
{
    block.extend_from_slice(b"doc ")?;
    block.extend_from_slice(line.name.as_slice())?;
    push_number(block, b" ", u64::from(line.nodes))?;
    block.push(b'\n')
}

// Adds the lines of intervals with the weights of their parts, and a dot.
fn push_parts(block: &mut Bytes, parts: &Partitioning, weights: &Weights) -> Result<(), NoMemory>
    ensures ok { OnOk result (block.new ≡ block.old ++ (flat_map interval_line (zip parts.now weights.now) ++ codes ".\n")) }
    ensures prefix { (bytes : List ℕ) × (block.new ≡ block.old ++ bytes) }
{
    for (interval, weight) in parts.as_slice().iter().zip(weights.as_slice()) {
        push_part(block, interval, *weight)?;
    }
    block.extend_from_slice(b".\n")
}

// Adds the line of an interval with the weight of its part.
fn push_part(block: &mut Bytes, interval: &Interval, weight: u64) -> Result<(), NoMemory>
    ensures ok { OnOk result (block.new ≡ block.old ++ interval_line (interval.now, weight)) }
    ensures prefix { (bytes : List ℕ) × (block.new ≡ block.old ++ bytes) }
{
    push_interval(block, interval)?;
    push_number(block, b" ", weight)?;
    block.push(b'\n')
}

// Adds an interval.
fn push_interval(block: &mut Bytes, interval: &Interval) -> Result<(), NoMemory>
    ensures ok { OnOk result (block.new ≡ block.old ++ interval_text interval.now) }
    ensures prefix { (bytes : List ℕ) × (block.new ≡ block.old ++ bytes) }
{
    match interval {
        Interval::Root => block.extend_from_slice(b"root"),
        Interval::Run {
            parent,
            first,
            last,
        } => {
            block.extend_from_slice(b"run ")?;
            push_path(block, parent.as_slice())?;
            push_number(block, b" ", u64::from(*first))?;
            push_number(block, b" ", u64::from(*last))
        }
    }
}

// Adds the lines of rules, and a dot.
fn push_rules(block: &mut Bytes, rules: &Rules) -> Result<(), NoMemory>
    ensures ok { OnOk result (block.new ≡ block.old ++ (flat_map rule_line rules.now ++ codes ".\n")) }
    ensures prefix { (bytes : List ℕ) × (block.new ≡ block.old ++ bytes) }
{
    for rule in rules.as_slice() {
        push_rule(block, rule)?;
    }
    block.extend_from_slice(b".\n")
}

// Adds the line of a rule.
fn push_rule(block: &mut Bytes, rule: &Rule) -> Result<(), NoMemory>
    ensures ok { OnOk result (block.new ≡ block.old ++ rule_line rule.now) }
    ensures prefix { (bytes : List ℕ) × (block.new ≡ block.old ++ bytes) }
{
    block.extend_from_slice(b"rule ")?;
    block.extend_from_slice(rule.parent.as_slice())?;
    block.push(b' ')?;
    block.extend_from_slice(rule.child.as_slice())?;
    block.push(b' ')?;
    block.extend_from_slice(entry_word(rule.entry))?;
    block.push(b'\n')
}

// Adds why a command is refused, in words.
fn push_cause(block: &mut Bytes, error: &ReplyError) -> Result<(), NoMemory>
    ensures ok { OnOk result (block.new ≡ block.old ++ cause error.now) }
    ensures prefix { (bytes : List ℕ) × (block.new ≡ block.old ++ bytes) }
{
    match error {
        ReplyError::Syntax => block.extend_from_slice(b"syntax"),
        ReplyError::NoDocument => block.extend_from_slice(b"no-document"),
        ReplyError::Exists => block.extend_from_slice(b"exists"),
        ReplyError::Pyx(PyxError { line, fault }) => {
            push_number(block, b"pyx ", *line)?;
            block.push(b' ')?;
            block.extend_from_slice(fault.word().as_bytes())
        }
        ReplyError::NoNode => block.extend_from_slice(b"no-node"),
        ReplyError::BadPlace => block.extend_from_slice(b"bad-place"),
        ReplyError::Twice => block.extend_from_slice(b"twice"),
        ReplyError::NoContent => block.extend_from_slice(b"no-content"),
        ReplyError::TooDeep => block.extend_from_slice(b"too-deep"),
        ReplyError::TooMany => block.extend_from_slice(b"too-many"),
        ReplyError::TooManyRules => block.extend_from_slice(b"too-many-rules"),
        ReplyError::TooHeavy { path, weight } => {
            block.extend_from_slice(b"too-heavy ")?;
            push_path(block, path.as_slice())?;
            push_number(block, b" ", u64::from(*weight))
        }
        ReplyError::Full => block.extend_from_slice(b"full"),
    }
}
