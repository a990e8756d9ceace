// A store of format 1, which is read as it is, and is of format 2 once it is changed.
use crate::documents::spelled;
use crate::laid::old_store;
use crate::stores::{answers, format_of, stored};
use nx_memory::Image;
use nx_tree::{Bytes, NoMemory};
use std::alloc::{AllocError, Global};
use std::process::Abort;
use std::test::Fail;
use std::thread::Threads;

// Lines, with 2,040 letters for each `=`, and 1,500 for each `+`.
fn with_texts(alloc: Global, lines: &[u8]) -> Result<Vec<u8>, AllocError> {
    let letters = Vec::from_elem(alloc, b'x', 1_015)?;
    let mut text = Vec::new(alloc);
    for byte in lines {
        match *byte {
            b'=' => push_long(&mut text, letters.as_slice())?,
            b'+' => push_long(&mut text, letters.get(..475).unwrap_or(b""))?,
            letter => text.push(letter)?,
        }
    }
    spelled(alloc, text.as_slice())
}

// Adds 1,025 letters, and these.
fn push_long(text: &mut Vec<u8>, letters: &[u8]) -> Result<(), AllocError> {
    text.push(b'~')?;
    text.extend_from_slice(letters)
}

// Edits, what they are answered, and looks with their replies.
type Edited = (&'static [u8], &'static [u8], &'static [u8], &'static [u8]);

const LOOK_AT_T: &[u8] = b"names\nlayout t\nexport t\nget t /0/0\n";

const LOOK_AT_U: &[u8] = b"names\nlayout u\nexport u\nget u /0/1\n";

const EDITED: [Edited; 16] = [
    (
        b"",
        b"",
        LOOK_AT_T,
        b"doc t 3\ndoc u 4\n.\nroot 3\nrun /0 0 0 2\n.\n(r\n-=\n)r\n.\nnode 0 -=\n",
    ),
    (
        b"retext t /0/0 hi\n",
        b"ok\n",
        LOOK_AT_T,
        b"doc t 3\ndoc u 4\n.\nroot 3\nrun /0 0 0 2\n.\n(r\n-hi\n)r\n.\nnode 0 -hi\n",
    ),
    (
        b"retext t /0/0 ^\n",
        b"ok\n",
        LOOK_AT_T,
        b"doc t 3\ndoc u 4\n.\nroot 3\nrun /0 0 0 2\n.\n(r\n-^\n)r\n.\nnode 0 -^\n",
    ),
    (
        b"insert t /0/1 -hi\n",
        b"ok\n",
        LOOK_AT_T,
        b"doc t 4\ndoc u 4\n.\nroot 5\nrun /0 0 0 2\n.\n(r\n-=\n-hi\n)r\n.\nnode 0 -=\n",
    ),
    (
        b"insert t /0/0 -~\n",
        b"ok\n",
        LOOK_AT_T,
        b"doc t 4\ndoc u 4\n.\nroot 5\nrun /0 1 1 2\n.\n(r\n-~\n-=\n)r\n.\nnode 0 -~\n",
    ),
    (
        b"insert t /0/0 Ab c\n",
        b"ok\n",
        LOOK_AT_T,
        b"doc t 4\ndoc u 4\n.\nroot 5\nrun /0 1 1 2\n.\n(r\nAb c\n-=\n)r\n.\nnode 0 Ab c\n",
    ),
    (
        b"delete t /0/0\n",
        b"ok\n",
        LOOK_AT_T,
        b"doc t 2\ndoc u 4\n.\nroot 3\n.\n(r\n)r\n.\nerror no-node\n",
    ),
    (
        b"drop t\nload t\n(r\n-=\n)r\n.\n",
        b"ok\nok 3 1\n",
        LOOK_AT_T,
        b"doc t 3\ndoc u 4\n.\nroot 5\n.\n(r\n-=\n)r\n.\nnode 0 -=\n",
    ),
    (
        b"",
        b"",
        LOOK_AT_U,
        b"doc t 3\ndoc u 4\n.\nroot 7\n.\n(r\n-hi\n-+\n)r\n.\nnode 0 -+\n",
    ),
    (
        b"retext u /0/0 ho\n",
        b"ok\n",
        LOOK_AT_U,
        b"doc t 3\ndoc u 4\n.\nroot 7\n.\n(r\n-ho\n-+\n)r\n.\nnode 0 -+\n",
    ),
    (
        b"retext u /0/1 ~\n",
        b"ok\n",
        LOOK_AT_U,
        b"doc t 3\ndoc u 4\n.\nroot 7\n.\n(r\n-hi\n-~\n)r\n.\nnode 0 -~\n",
    ),
    (
        b"insert u /0/2 -=\n",
        b"ok\n",
        LOOK_AT_U,
        b"doc t 3\ndoc u 5\n.\nroot 9\n.\n(r\n-hi\n-+\n-=\n)r\n.\nnode 0 -+\n",
    ),
    (
        b"rule r b standalone\ninsert u /0/0 (b\n",
        b"ok\nok\n",
        LOOK_AT_U,
        b"doc t 3\ndoc u 5\n.\nroot 7\nrun /0 0 0 2\n.\n(r\n(b\n)b\n-hi\n-+\n)r\n.\nnode 0 -hi\n",
    ),
    (
        b"delete u /0/0\n",
        b"ok\n",
        LOOK_AT_U,
        b"doc t 3\ndoc u 3\n.\nroot 5\n.\n(r\n-+\n)r\n.\nerror no-node\n",
    ),
    (
        b"delete u /0/1\n",
        b"ok\n",
        LOOK_AT_U,
        b"doc t 3\ndoc u 3\n.\nroot 5\n.\n(r\n-hi\n)r\n.\nerror no-node\n",
    ),
    (
        b"drop u\n",
        b"ok\n",
        LOOK_AT_U,
        b"doc t 3\n.\nerror no-document\nerror no-document\nerror no-document\n",
    ),
];

// The replies to edits of the old store and to looks.
fn replies(
    rt: &(impl Threads + Abort + Sync),
    alloc: Global,
    image: &Image,
    edits: &[u8],
    looks: &[u8],
) -> Result<Bytes, NoMemory> {
    let script = with_texts(alloc, [edits, looks].concat(alloc)?.as_slice())?;
    answers(rt, alloc, image, script.as_slice())
}

// The store with these edits, with an empty log.
fn edited(
    rt: &(impl Threads + Abort + Sync),
    alloc: Global,
    edits: &[u8],
) -> Result<Image, NoMemory> {
    let script = [edits, b"checkpoint\n"].concat(alloc)?;
    let script = with_texts(alloc, script.as_slice())?;
    stored(rt, alloc, &old_store(alloc)?, script.as_slice())
}

fn check(
    rt: &(impl Threads + Abort + Sync),
    alloc: Global,
    (edits, said, looks, seen): Edited,
) -> Result<(), NoMemory> {
    let want = with_texts(alloc, [said, seen].concat(alloc)?.as_slice())?;
    let found = replies(rt, alloc, &old_store(alloc)?, edits, looks)?;
    assert_eq!(rt; found.as_slice(), want.as_slice());
    let want = with_texts(alloc, seen)?;
    let found = replies(rt, alloc, &edited(rt, alloc, edits)?, b"", looks)?;
    assert_eq!(rt; found.as_slice(), want.as_slice());
    Ok(())
}

// Each kind of edit, at once and when the store is opened again.
#[test]
fn an_old_store_is_edited(rt: HostRuntime) -> Result<(), Fail> {
    for row in EDITED {
        check(&rt, rt.alloc(), row)?;
    }
    Ok(())
}

// A session that changes nothing leaves the format.
#[test]
fn a_commit_writes_the_new_format(rt: HostRuntime) -> Result<(), Fail> {
    let looked = edited(&rt, rt.alloc(), LOOK_AT_U)?;
    assert_eq!(rt; format_of(rt.alloc(), looked)?, 1);
    let changed = edited(&rt, rt.alloc(), b"retext t /0/0 hi\n")?;
    assert_eq!(rt; format_of(rt.alloc(), changed)?, 2);
    Ok(())
}
