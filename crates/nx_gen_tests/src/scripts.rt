// Generated scripts as the lines of a script.
ghost use Rattle.std.specs.Prelude.{◌<◌, ◌≤◌, ◌^◌};

use itoa::Buffer;
use nx_gen::Gen;
use nx_pyx::{node_line, write};
use nx_script::{Command, LineBody, LoadBody, TextBody};
use nx_tree::NoMemory;
use std::alloc::Global;
use std::process::Abort;
use std::test::Fail;

// For the seed 0 and the number 1.
const ONE: &[&[u8]] = &[
    b"load gen\n",
    b"(r\n",
    b"(e\n",
    b"Aid 0\n",
    b"-ccccccccccccccc\n",
    b")e\n",
    b")r\n",
    b".\n",
    b"retext gen /0/0/1 yyyyyyyyyyyyyyyyyy\n",
    b"export gen\n",
];

// For the seed 2147483647 and the number 5.
const FIVE: &[&[u8]] = &[
    b"load gen\n",
    b"(r\n",
    b"(e\n",
    b"Aid 0\n",
    b"-mmmmmmmm\n",
    b")e\n",
    b"(e\n",
    b"Aid 1\n",
    b"-ppppppppppppppp\n",
    b")e\n",
    b"(e\n",
    b"Aid 2\n",
    b"-cccc\n",
    b")e\n",
    b"(e\n",
    b"Aid 3\n",
    b"-llllllll\n",
    b")e\n",
    b"(e\n",
    b"Aid 4\n",
    b"-wwwwwwwwwwwwwwwwwwwww\n",
    b")e\n",
    b")r\n",
    b".\n",
    b"retext gen /0/1/1 \n",
    b"get gen /0/3\n",
    b"retext gen /0/4/1 bbbbbbbbbbbbbbbbbbbbb\n",
    b"retext gen /0/3/1 kkkkkkkkkkkkkkkkkkkkkk\n",
    b"insert gen /0/2/1 ?p yyyyyyyyyyyyyyyyyyyyyyyy\n",
    b"delete gen /0/2/1\n",
    b"export gen\n",
];

// For the seed 7 and the number 6.
const SIX: &[&[u8]] = &[
    b"load gen\n",
    b"(r\n",
    b"(e\n",
    b"Aid 0\n",
    b"-llllllllllllllllllllllllll\n",
    b")e\n",
    b"(e\n",
    b"Aid 1\n",
    b"-lllllllllllllllllllllllll\n",
    b")e\n",
    b"(e\n",
    b"Aid 2\n",
    b"-kk\n",
    b")e\n",
    b"(e\n",
    b"Aid 3\n",
    b"-eeeeeeeee\n",
    b")e\n",
    b"(e\n",
    b"Aid 4\n",
    b"-pppppppppppppppppppppppppppppp\n",
    b")e\n",
    b"(e\n",
    b"Aid 5\n",
    b"-wwwwwwwwwwwwwwwwwwwwwwwwwwwwww\n",
    b")e\n",
    b")r\n",
    b".\n",
    b"insert gen /0/3/1 -aaaaa\n",
    b"insert gen /0/5/1 -\n",
    b"insert gen /0/1/1 -vvvvvvvvv\n",
    b"insert gen /0/2/1 -aaaaaa\n",
    b"insert gen /0/0/1 -j\n",
    b"retext gen /0/3/1 p\n",
    b"export gen\n",
];

// Adds a word and the place behind it.
fn push_place(line: &mut Vec<u8>, word: &[u8], name: &[u8], path: &[u32]) -> Result<(), NoMemory> {
    line.extend_from_slice(word)?;
    line.extend_from_slice(b" ")?;
    line.extend_from_slice(name)?;
    line.extend_from_slice(b" ")?;
    for position in path {
        push_number(line, *position)?;
    }
    Ok(())
}

fn push_number(line: &mut Vec<u8>, number: u32) -> Result<(), NoMemory> {
    let mut buffer = Buffer::new();
    line.extend_from_slice(b"/")?;
    line.extend_from_slice(buffer.format(number).as_bytes())?;
    Ok(())
}

// Adds the lines of the command.
fn push_lines(alloc: Global, text: &mut Vec<u8>, command: &Command) -> Result<(), NoMemory> {
    match command {
        Command::Load {
            name,
            body: LoadBody::Read(tree),
        } => {
            text.extend_from_slice(b"load ")?;
            text.extend_from_slice(name.as_slice())?;
            text.extend_from_slice(b"\n")?;
            text.extend_from_slice(write(alloc, tree)?.as_slice())?;
            text.extend_from_slice(b".\n")?;
        }
        Command::Retext {
            name,
            path,
            text: TextBody::Read(content),
        } => {
            push_place(text, b"retext", name.as_slice(), path.as_slice())?;
            text.extend_from_slice(b" ")?;
            text.extend_from_slice(content.as_slice())?;
            text.extend_from_slice(b"\n")?;
        }
        Command::Insert {
            name,
            path,
            line: LineBody::Read(node),
        } => {
            push_place(text, b"insert", name.as_slice(), path.as_slice())?;
            text.extend_from_slice(b" ")?;
            text.extend_from_slice(node_line(alloc, node)?.as_slice())?;
            text.extend_from_slice(b"\n")?;
        }
        Command::Get { name, path } => {
            push_place(text, b"get", name.as_slice(), path.as_slice())?;
            text.extend_from_slice(b"\n")?;
        }
        Command::Delete { name, path } => {
            push_place(text, b"delete", name.as_slice(), path.as_slice())?;
            text.extend_from_slice(b"\n")?;
        }
        Command::Export { name } => {
            text.extend_from_slice(b"export ")?;
            text.extend_from_slice(name.as_slice())?;
            text.extend_from_slice(b"\n")?;
        }
        _ => text.extend_from_slice(b"another command\n")?,
    }
    Ok(())
}

// The script for a seed and a number.
fn script(alloc: Global, seed: u32, n: u32) -> Result<Vec<u8>, NoMemory>
    requires seed { seed < 2 ^ 31 }
    requires some { 1 ≤ n }
    requires few { n ≤ 100000 }
{
    let mut commands = Gen::new(alloc, seed, n)?;
    let mut text = Vec::new(alloc);
    for _ in 0..300_000u32 {
        let Some(command) = commands.next()? else {
            return Ok(text);
        };
        push_lines(alloc, &mut text, &command)?;
    }
    Ok(text)
}

fn joined(alloc: Global, lines: &[&[u8]]) -> Result<Vec<u8>, NoMemory> {
    let mut text = Vec::new(alloc);
    for line in lines {
        text.extend_from_slice(line)?;
    }
    Ok(text)
}

// Compares the script for a seed and a number with these lines.
fn compare(rt: &impl Abort, alloc: Global, seed: u32, n: u32, lines: &[&[u8]]) -> Result<(), Fail>
    requires seed { seed < 2 ^ 31 }
    requires some { 1 ≤ n }
    requires few { n ≤ 100000 }
{
    let expected = joined(alloc, lines)?;
    let found = script(alloc, seed, n)?;
    assert!(rt; found.as_slice() == expected.as_slice());
    Ok(())
}

#[test]
fn scripts(rt: HostRuntime) -> Result<(), Fail> {
    let alloc = rt.alloc();
    compare(&rt, alloc, 0, 1, ONE)?;
    compare(&rt, alloc, 2_147_483_647, 5, FIVE)?;
    compare(&rt, alloc, 7, 6, SIX)
}
