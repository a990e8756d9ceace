// The lines of a script that ask for what a store has, and the replies to them.
use crate::checks::{check_bytes, check_row};
use nx_matrix::{Entry, Rule, Rules};
use nx_parts::{Interval, Partitioning};
use nx_script::{Command, Parser, Reply, ReplyError, push_reply, write_reply};
use nx_tree::{Bytes, NoMemory, Path};
use nx_weights::Weights;
use std::alloc::Global;
use std::process::Abort;
use std::test::Fail;

// A line, and its command in words: its name, and the document's, or the labels and the entry.
const LINES: [(&[u8], &[u8]); 19] = [
    (b"layout d", b"layout d"),
    (b"layout !~a/#@-\r", b"layout !~a/#@-"),
    (b"rules", b"rules"),
    (b"rules\r", b"rules"),
    (b"checkpoint", b"checkpoint"),
    (b"rule #doc a standalone", b"set #doc, a: Standalone"),
    (b"rule a #text cluster", b"set a, #text: Cluster"),
    (b"rule a b free", b"set a, b: Free"),
    (b"rule a @id cluster", b"set a, @id: Cluster"),
    (b"rule a ?p free", b"set a, ?p: Free"),
    (b"rule #doc ?p cluster\r", b"set #doc, ?p: Cluster"),
    (b"rule - -. free", b"set -, -.: Free"),
    (
        b"rule rule rules standalone",
        b"set rule, rules: Standalone",
    ),
    (b"rule a:b \xff!~ free", b"set a:b, \xff!~: Free"),
    (b"rename d !~\r", b"rename d !~"),
    (b"begin\r", b"begin"),
    (b"begin ", b"begin and more"),
    (b"begin d", b"begin and more"),
    (b"commit", b"commit"),
];

// Lines that are no command for their fields,
const WRONG_FIELDS: [&[u8]; 39] = [
    b"layout",
    b"layout ",
    b"layout -d",
    b"layout d ",
    b"layout  d",
    b"layout d e",
    b"layout d /",
    b"Layout d",
    b"layouts d",
    b"rules ",
    b"rules d",
    b" rules",
    b"Rules",
    b"checkpoint ",
    b"checkpoint d",
    b"checkpoints",
    b"rule",
    b"rule ",
    b"rule a",
    b"rule a b",
    b"rule a b ",
    b"rule a b free ",
    b"rule a b free x",
    b"rule a b  free",
    b"rule a  b free",
    b"rule  a b free",
    b"rule\ta b free",
    b"rule a b Free",
    b"rule a b cluste",
    b"rule a b clusters",
    b"rename",
    b"rename d",
    b"rename d ",
    b"rename d  e",
    b"rename d e ",
    b"rename -d e",
    b"rename d -e",
    b"commit ",
    b"begins",
];

// for a label of a parent, before a child and an entry,
const WRONG_PARENTS: [&[u8]; 12] = [
    b"", b"#", b"#text", b"#docs", b"#Doc", b"@a", b"?a", b"a/b", b"a*", b"a\tb", b"a\\", b"*",
];

// and for a label of a child, behind a parent and before an entry.
const WRONG_CHILDREN: [&[u8]; 16] = [
    b"", b"#", b"#doc", b"#texts", b"#Text", b"@", b"?", b"@@a", b"@?a", b"?@a", b"@#text", b"a@b",
    b"a/b", b"@a/b", b"?a\\", b"*",
];

// A rule, and its line.
const RULES: [(&[u8], &[u8], Entry, &[u8]); 4] = [
    (
        b"#doc",
        b"a",
        Entry::Standalone,
        b"rule #doc a standalone\n",
    ),
    (b"a", b"#text", Entry::Cluster, b"rule a #text cluster\n"),
    (b"a", b"?p", Entry::Standalone, b"rule a ?p standalone\n"),
    (b"b", b"@id", Entry::Free, b"rule b @id free\n"),
];

// The command of a line.
fn command(alloc: Global, line: &[u8]) -> Result<Command, NoMemory> {
    let bytes = joined(alloc, &[line, b"\n"])?;
    match first_command(alloc, bytes.as_slice())? {
        Some(command) => Ok(command),
        None => Ok(Command::Names),
    }
}

// The command that these bytes begin with.
fn first_command(alloc: Global, bytes: &[u8]) -> Result<Option<Command>, NoMemory> {
    if bytes.is_empty() {
        return Ok(None);
    }
    let (_, command) = Parser::new(alloc).take(bytes)?;
    Ok(command)
}

fn entry_word(entry: Entry) -> &'static [u8] {
    match entry {
        Entry::Standalone => b"Standalone",
        Entry::Cluster => b"Cluster",
        Entry::Free => b"Free",
    }
}

// A rule in words.
fn rule_text(alloc: Global, rule: &Rule) -> Result<Bytes, NoMemory> {
    let mut text = joined(alloc, &[b"set ", rule.parent.as_slice()])?;
    text.extend_from_slice(b", ")?;
    text.extend_from_slice(rule.child.as_slice())?;
    text.extend_from_slice(b": ")?;
    text.extend_from_slice(entry_word(rule.entry))?;
    Ok(text)
}

// The command in words.
fn said(alloc: Global, command: &Command) -> Result<Bytes, NoMemory> {
    match command {
        Command::Layout { name } => joined(alloc, &[b"layout ", name.as_slice()]),
        Command::Rules => joined(alloc, &[b"rules"]),
        Command::Checkpoint => joined(alloc, &[b"checkpoint"]),
        Command::SetRule { rule } => rule_text(alloc, rule),
        Command::Rename { old, new } => {
            joined(alloc, &[b"rename ", old.as_slice(), b" ", new.as_slice()])
        }
        Command::Begin { bare: true } => joined(alloc, &[b"begin"]),
        Command::Begin { bare: false } => joined(alloc, &[b"begin and more"]),
        Command::Commit => joined(alloc, &[b"commit"]),
        Command::Bad => joined(alloc, &[b"bad"]),
        _ => joined(alloc, &[b"another"]),
    }
}

fn check_line(
    rt: &impl Abort,
    alloc: Global,
    parts: &[&[u8]],
    expected: &[u8],
) -> Result<(), NoMemory> {
    let line = joined(alloc, parts)?;
    let words = said_by(alloc, line.as_slice())?;
    check_said(rt, words.as_slice(), expected, parts);
    Ok(())
}

fn check_said(rt: &impl Abort, words: &[u8], expected: &[u8], parts: &[&[u8]]) {
    assert_eq!(rt; words, expected, "{parts:?}");
}

// The command of a line, in words.
fn said_by(alloc: Global, line: &[u8]) -> Result<Bytes, NoMemory> {
    let command = command(alloc, line)?;
    said(alloc, &command)
}

fn joined(alloc: Global, parts: &[&[u8]]) -> Result<Bytes, NoMemory> {
    let mut text = Bytes::new(alloc);
    for part in parts {
        text.extend_from_slice(part)?;
    }
    Ok(text)
}

// The reply is written so, and added so to what a block has.
fn check_text(
    rt: &impl Abort,
    alloc: Global,
    reply: &Reply,
    expected: &[u8],
) -> Result<(), NoMemory> {
    let text = written(alloc, reply)?;
    check_bytes(rt, text.as_slice(), expected);
    let block = pushed(alloc, reply)?;
    check_behind(rt, block.as_slice(), expected);
    Ok(())
}

fn check_behind(rt: &impl Abort, block: &[u8], expected: &[u8]) {
    assert_eq!(rt; block.strip_prefix(b"before"), Some(expected));
}

fn written(alloc: Global, reply: &Reply) -> Result<Bytes, NoMemory> {
    write_reply(alloc, reply)
}

fn pushed(alloc: Global, reply: &Reply) -> Result<Bytes, NoMemory> {
    let mut block = Bytes::from_slice(alloc, b"before")?;
    push_reply(&mut block, reply)?;
    Ok(block)
}

#[test]
fn lines(rt: HostRuntime) -> Result<(), Fail> {
    for (line, expected) in LINES {
        check_line(&rt, rt.alloc(), &[line], expected)?;
    }
    for line in WRONG_FIELDS {
        check_line(&rt, rt.alloc(), &[line], b"bad")?;
    }
    Ok(())
}

#[test]
fn labels(rt: HostRuntime) -> Result<(), Fail> {
    for parent in WRONG_PARENTS {
        check_line(&rt, rt.alloc(), &[b"rule ", parent, b" b free"], b"bad")?;
    }
    for child in WRONG_CHILDREN {
        check_line(&rt, rt.alloc(), &[b"rule a ", child, b" free"], b"bad")?;
    }
    Ok(())
}

fn rule(alloc: Global, parent: &[u8], child: &[u8], entry: Entry) -> Result<Rule, NoMemory> {
    Ok(Rule {
        parent: Bytes::from_slice(alloc, parent)?,
        child: Bytes::from_slice(alloc, child)?,
        entry,
    })
}

// The rules of the table.
fn all_rules(alloc: Global) -> Result<Rules, NoMemory> {
    let mut rules = Rules::new(alloc);
    push_rules(alloc, &mut rules)?;
    Ok(rules)
}

fn push_rules(alloc: Global, rules: &mut Rules) -> Result<(), NoMemory> {
    for (parent, child, entry, _) in RULES {
        let rule = rule(alloc, parent, child, entry)?;
        rules.push(rule)?;
    }
    Ok(())
}

fn is_rule(rule: &Rule, parent: &[u8], child: &[u8], entry: Entry) -> bool {
    rule.parent.as_slice() == parent && rule.child.as_slice() == child && rule.entry == entry
}

// Whether the line sets that rule.
fn sets(
    alloc: Global,
    line: &[u8],
    parent: &[u8],
    child: &[u8],
    entry: Entry,
) -> Result<bool, NoMemory> {
    let command = command(alloc, line)?;
    Ok(match &command {
        Command::SetRule { rule } => is_rule(rule, parent, child, entry),
        _ => false,
    })
}

// The line of a rule in a reply is the line that sets it.
#[test]
fn rules(rt: HostRuntime) -> Result<(), Fail> {
    check_rules(&rt, rt.alloc(), Rules::new(rt.alloc()), b".\n")?;
    for (parent, child, entry, line) in RULES {
        let found = sets(rt.alloc(), line, parent, child, entry)?;
        check_row(&rt, found, true, line);
    }
    check_all_rules(&rt, rt.alloc())?;
    Ok(())
}

fn check_rules(
    rt: &impl Abort,
    alloc: Global,
    rules: Rules,
    expected: &[u8],
) -> Result<(), NoMemory> {
    let reply = Reply::Rules(rules);
    check_text(rt, alloc, &reply, expected)
}

fn check_all_rules(rt: &impl Abort, alloc: Global) -> Result<(), NoMemory> {
    let rules = all_rules(alloc)?;
    let text = all_lines(alloc)?;
    check_rules(rt, alloc, rules, text.as_slice())
}

// Their lines, and the end of a reply.
fn all_lines(alloc: Global) -> Result<Bytes, NoMemory> {
    let lines: [&[u8]; 5] = [RULES[0].3, RULES[1].3, RULES[2].3, RULES[3].3, b".\n"];
    joined(alloc, &lines)
}

fn push_run(
    alloc: Global,
    parts: &mut Partitioning,
    parent: &[u32],
    first: u32,
    last: u32,
) -> Result<(), NoMemory> {
    let parent = Path::from_slice(alloc, parent)?;
    parts.push(Interval::Run {
        parent,
        first,
        last,
    })
}

fn push_intervals(alloc: Global, parts: &mut Partitioning) -> Result<(), NoMemory> {
    parts.push(Interval::Root)?;
    push_run(alloc, parts, &[], 0, 1)?;
    push_run(alloc, parts, &[0, 12], 2, u32::MAX)
}

// A layout of three intervals.
fn layout(alloc: Global) -> Result<Reply, NoMemory> {
    let mut parts = Partitioning::new(alloc);
    push_intervals(alloc, &mut parts)?;
    let weights = Weights::from_slice(alloc, &[3, 256, 17])?;
    Ok(Reply::Laid { parts, weights })
}

#[test]
fn layouts(rt: HostRuntime) -> Result<(), Fail> {
    let reply = layout(rt.alloc())?;
    let text = b"root 3\nrun / 0 1 256\nrun /0/12 2 4294967295 17\n.\n";
    check_text(&rt, rt.alloc(), &reply, text)?;
    Ok(())
}

#[test]
fn refusals(rt: HostRuntime) -> Result<(), Fail> {
    let many = ReplyError::TooManyRules;
    check_refusal(&rt, rt.alloc(), many, b"error too-many-rules\n")?;
    check_refusal(&rt, rt.alloc(), ReplyError::Full, b"error full\n")?;
    Ok(())
}

fn check_refusal(
    rt: &impl Abort,
    alloc: Global,
    error: ReplyError,
    expected: &[u8],
) -> Result<(), NoMemory> {
    let reply = Reply::Refused(error);
    check_text(rt, alloc, &reply, expected)
}
