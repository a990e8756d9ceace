// Worked rows: whole scripts with all that they are answered, by a store and by a run over one.
ghost use Rattle.nx_holdings.specs.Header.{AreSettings};

use crate::documents::{BOOK, SMALL, load, wide};
use crate::stores::{HEAVY, LIGHT, answers, create, empty_host, new_store, request_of, stored};
use nx_memory::MemoryHost;
use nx_records::Settings;
use nx_script::ScriptError;
use nx_store::{EngineError, Store};
use nx_tree::Bytes;
use std::alloc::{AllocError, Global};
use std::process::Abort;
use std::test::Fail;
use std::thread::Threads;

fn answer(
    rt: &(impl Threads + Sync),
    alloc: Global,
    store: &mut Store,
    host: &mut MemoryHost,
    lines: &[u8],
) -> Result<Result<(), EngineError>, ScriptError> {
    let request = request_of(alloc, lines)?;
    Ok(store.answer(rt, host, request))
}

// What a new store answers, request by request.
fn one_by_one(
    rt: &(impl Threads + Sync),
    alloc: Global,
    settings: Settings,
    requests: &[&[u8]],
) -> Result<Bytes, Fail>
    requires { AreSettings settings }
{
    let mut host = empty_host(alloc)?;
    let mut store = create(alloc, &mut host, settings)?;
    for request in requests {
        answer(rt, alloc, &mut store, &mut host, request)??;
    }
    Ok(Bytes::from_slice(alloc, host.output())?)
}

// What a run over a new store answers.
fn in_a_script(
    rt: &(impl Threads + Abort + Sync),
    alloc: Global,
    settings: Settings,
    requests: &[&[u8]],
) -> Result<Bytes, Fail>
    requires { AreSettings settings }
{
    let image = new_store(alloc, settings)?;
    let script = requests.concat(alloc)?;
    Ok(answers(rt, alloc, &image, script.as_slice())?)
}

// A new store answers these requests so, one by one and in a script.
fn check(
    rt: &(impl Threads + Abort + Sync),
    alloc: Global,
    settings: Settings,
    requests: &[&[u8]],
    output: &[u8],
) -> Result<(), Fail>
    requires { AreSettings settings }
{
    let found = one_by_one(rt, alloc, settings, requests)?;
    assert_eq!(rt; found.as_slice(), output);
    let found = in_a_script(rt, alloc, settings, requests)?;
    assert_eq!(rt; found.as_slice(), output);
    Ok(())
}

/// The same of a light store.
pub fn check_light(
    rt: &(impl Threads + Abort + Sync),
    alloc: Global,
    requests: &[&[u8]],
    output: &[u8],
) -> Result<(), Fail> {
    check(rt, alloc, LIGHT, requests, output)
}

// And of one with heavy parts.
fn check_heavy(
    rt: &(impl Threads + Abort + Sync),
    alloc: Global,
    commands: &[&[u8]],
    output: &[u8],
) -> Result<(), Fail> {
    check(rt, alloc, HEAVY, commands, output)
}

// The lines that load an element over so many texts of so many letters.
fn load_wide(
    alloc: Global,
    name: &[u8],
    texts: usize,
    letters: usize,
) -> Result<Vec<u8>, AllocError> {
    load(alloc, name, wide(alloc, texts, letters)?.as_slice())
}

// Texts of more than 1,024 letters stand outside of the record, however long they are.
#[test]
fn long_texts(rt: HostRuntime) -> Result<(), Fail> {
    let one = load_wide(rt.alloc(), b"t", 1, 2_040)?;
    let other = load_wide(rt.alloc(), b"u", 1, 2_041)?;
    let commands: [&[u8]; 2] = [one.as_slice(), other.as_slice()];
    check_heavy(&rt, rt.alloc(), &commands, b"ok 3 1\nok 3 1\n")
}

// The longest content, which takes 129 chain pages.
#[test]
fn the_longest_text(rt: HostRuntime) -> Result<(), Fail> {
    let content = Vec::from_elem(rt.alloc(), b'x', 1_048_576)?;
    let document = wide(rt.alloc(), 1, 1_048_576)?;
    let load = load(rt.alloc(), b"t", document.as_slice())?;
    let retext: [&[u8]; 3] = [b"retext t /0/0 ", content.as_slice(), b"\n"];
    let retext = retext.concat(rt.alloc())?;
    let commands: [&[u8]; 5] = [
        load.as_slice(),
        b"retext t /0/0 hi\n",
        retext.as_slice(),
        b"get t /0/0\n",
        b"export t\n",
    ];
    let output: [&[u8]; 5] = [
        b"ok 3 1\nok\nok\nnode 0 -",
        content.as_slice(),
        b"\n",
        document.as_slice(),
        b".\n",
    ];
    let output = output.concat(rt.alloc())?;
    check_heavy(&rt, rt.alloc(), &commands, output.as_slice())
}

// A text of 1,024 letters outweighs 128 slots, and one of more letters doesn't.
#[test]
fn heavy_texts(rt: HostRuntime) -> Result<(), Fail> {
    let settings = Settings { k: 128, ..HEAVY };
    let heavy = load_wide(rt.alloc(), b"t", 1, 1_024)?;
    let long = load_wide(rt.alloc(), b"u", 1, 1_025)?;
    let text = wide(rt.alloc(), 1, 1_025)?;
    let commands: [&[u8]; 3] = [heavy.as_slice(), long.as_slice(), b"export u\n"];
    let output = [
        b"error too-heavy /0/0 129\nok 3 1\n",
        text.as_slice(),
        b".\n",
    ]
    .concat(rt.alloc())?;
    check(&rt, rt.alloc(), settings, &commands, output.as_slice())
}

// The root's record has its 1,499 proxies in two chain pages.
#[test]
fn many_parts(rt: HostRuntime) -> Result<(), Fail> {
    let document = wide(rt.alloc(), 1_500, 1_024)?;
    let lines = load(rt.alloc(), b"w", document.as_slice())?;
    let output = [b"ok 1502 1500\n", document.as_slice(), b".\n"].concat(rt.alloc())?;
    let commands: [&[u8]; 2] = [lines.as_slice(), b"export w\n"];
    check_heavy(&rt, rt.alloc(), &commands, output.as_slice())
}

const SIXTEEN: &[u8] =
    b"(b\n-12345678\n-12345678\n-12345678\n-12345678\n-12345678\n-12345678\n-12345678\n)b\n";

// 20,002 nodes, whose minima four threads find. An element over seven texts weighs as much as a part may, and all of it more than
// 2,500 parts do.
#[test]
fn many_nodes(rt: HostRuntime) -> Result<(), Fail> {
    let elements = times(rt.alloc(), 2_500, SIXTEEN)?;
    let document = [b"(a\n", elements.as_slice(), b")a\n"].concat(rt.alloc())?;
    let lines = load(rt.alloc(), b"d", document.as_slice())?;
    let output = [b"ok 20002 2501\n", document.as_slice(), b".\n"].concat(rt.alloc())?;
    let commands: [&[u8]; 2] = [lines.as_slice(), b"export d\n"];
    check_light(&rt, rt.alloc(), &commands, output.as_slice())
}

// The 251 contents take more than the 63 pages beside the header.
#[test]
fn no_room(rt: HostRuntime) -> Result<(), Fail> {
    let settings = Settings { limit: 64, ..HEAVY };
    let large = load_wide(rt.alloc(), b"d", 251, 2_040)?;
    let small = load(rt.alloc(), b"e", SMALL)?;
    let commands: [&[u8]; 3] = [large.as_slice(), b"names\n", small.as_slice()];
    check(
        &rt,
        rt.alloc(),
        settings,
        &commands,
        b"error full\n.\nok 4 1\n",
    )
}

#[test]
fn a_book(rt: HostRuntime) -> Result<(), Fail> {
    let book = load(rt.alloc(), b"book", BOOK)?;
    let output = [b"ok 8 1\n", BOOK, b".\n"].concat(rt.alloc())?;
    let commands: [&[u8]; 2] = [book.as_slice(), b"export book\n"];
    check_heavy(&rt, rt.alloc(), &commands, output.as_slice())
}

const LOOKS: [&[u8]; 12] = [
    b"export e\n",
    b"load e\n(a\nAx 1\n-hi\n)a\n.\n",
    b"load e\n(a\nAx 1\n-hi\n)a\n.\n",
    b"load f\n(a\n)b\n.\n",
    b"get e /0\n",
    b"get e /9\n",
    b"get f /\n",
    b"layout e\n",
    b"layout f\n",
    b"names\n",
    b"\n",
    b"checkpoint\n",
];

const LOOKED: &[u8] =
    b"error no-document\nok 4 1\nerror exists\nerror pyx 2 bad-nesting\nnode 2 (a\nerror no-node\nerror no-document\nroot 7\n.\nerror no-document\ndoc e 4\n.\nerror syntax\nok\n";

const RULES: [&[u8]; 12] = [
    b"rules\n",
    b"rule a b cluster\n",
    b"rule #doc a standalone\n",
    b"rules\n",
    b"rule a b standalone\n",
    b"rule a @b free\n",
    b"rules\n",
    b"rule a b free\n",
    b"rule #doc a free\n",
    b"rules\n",
    b"rule #text a free\n",
    b"rule a b\n",
];

const RULED: &[u8] =
    b".\nok\nok\nrule #doc a standalone\nrule a b cluster\n.\nok\nok\nrule #doc a standalone\nrule a b standalone\n.\nok\nok\n.\nerror syntax\nerror syntax\n";

// Rules are those of the last commit when the store is opened again.
#[test]
fn rules_stay(rt: HostRuntime) -> Result<(), Fail> {
    let script = b"rule a b cluster\nrule b a cluster\nrule b a free\n";
    let empty = new_store(rt.alloc(), LIGHT)?;
    let image = stored(&rt, rt.alloc(), &empty, script)?;
    let found = answers(&rt, rt.alloc(), &image, b"rules\n")?;
    assert_eq!(rt; found.as_slice(), b"rule a b cluster\n.\n".as_slice());
    Ok(())
}

// An element over six texts, a part of 15 slots.
const SIX: &[u8] =
    b"load d\n(a\n-12345678\n-12345678\n-12345678\n-12345678\n-12345678\n-12345678\n)a\n.\n";

const PLANTS: [&[u8]; 14] = [
    SIX,
    b"insert d /0/6 -12345678\n",
    b"layout d\n",
    b"rule a b standalone\n",
    b"insert d /0/4 (b\n",
    b"layout d\n",
    b"get d /0/4\n",
    b"get d /0/5\n",
    b"get d /0\n",
    b"delete d /0/4\n",
    b"layout d\n",
    b"delete d /0\n",
    b"delete d /\n",
    b"names\n",
];

const PLANTED: &[u8] =
    b"ok 8 1\nok\nroot 3\nrun /0 0 1 4\nrun /0 2 6 10\n.\nok\nok\nroot 3\nrun /0 0 1 4\nrun /0 2 3 4\nrun /0 4 4 2\nrun /0 5 7 6\n.\nnode 0 (b\nnode 0 -12345678\nnode 8 (a\nok\nroot 3\nrun /0 0 1 4\nrun /0 2 3 4\nrun /0 4 6 6\n.\nerror bad-place\nerror bad-place\ndoc d 9\n.\n";

const CLUSTERS: [&[u8]; 4] = [
    b"rule a #text cluster\n",
    SIX,
    b"insert d /0/6 -12345678\n",
    b"layout d\n",
];

const CLUSTERED: &[u8] = b"ok\nok 8 1\nok\nroot 1\nrun / 0 0 16\n.\n";

const DIVIDES: [&[u8]; 7] = [
    SIX,
    b"insert d /0/6 -12345678\n",
    b"rule a b cluster\n",
    b"insert d /0/4 (b\n",
    b"layout d\n",
    b"insert d /0/6 -x\n",
    b"layout d\n",
];

const DIVIDED: &[u8] =
    b"ok 8 1\nok\nok\nok\nroot 5\nrun /0 0 1 4\nrun /0 2 3 4\nrun /0 5 7 6\n.\nok\nroot 5\nrun /0 0 1 4\nrun /0 2 3 4\nrun /0 5 8 8\n.\n";

// An element with one below it over six texts, in a part beside the document's node.
const NESTED: &[u8] =
    b"load d\n(a\n(b\n-12345678\n-12345678\n-12345678\n-12345678\n-12345678\n-12345678\n)b\n)a\n.\n";

const RAISES: [&[u8]; 4] = [
    NESTED,
    b"layout d\n",
    b"insert d /0/0/6 -12345678\n",
    b"layout d\n",
];

const RAISED: &[u8] =
    b"ok 9 2\nroot 1\nrun / 0 0 16\n.\nok\nroot 5\nrun /0/0 0 1 4\nrun /0/0 2 6 10\n.\n";

const STAYS: [&[u8]; 5] = [
    b"rule #doc a standalone\n",
    NESTED,
    b"layout d\n",
    b"insert d /0/0/6 -12345678\n",
    b"layout d\n",
];

const STAYED: &[u8] =
    b"ok\nok 9 2\nroot 1\nrun / 0 0 16\n.\nok\nroot 1\nrun / 0 0 4\nrun /0/0 0 1 4\nrun /0/0 2 6 10\n.\n";

const EDITS: [&[u8]; 13] = [
    b"load e\n(a\nAx 1\n-hi\n)a\n.\n",
    b"insert e /0/1 Ax 2\n",
    b"get e /0\n",
    b"retext e /0 x\n",
    b"retext e /0/1 bye\n",
    b"get e /0/1\n",
    b"retext e /0/0\n",
    b"get e /9\n",
    b"names\n",
    b"export e\n",
    b"drop e\n",
    b"names\n",
    b"checkpoint\n",
];

const EDITED: &[u8] =
    b"ok 4 1\nerror twice\nnode 2 (a\nerror no-content\nok\nnode 0 -bye\nok\nerror no-node\ndoc e 4\n.\n(a\nAx \n-bye\n)a\n.\nok\n.\nok\n";

const INSERTS: [&[u8]; 15] = [
    b"insert e /0/1 -x\n",
    b"load e\n(a\nAx 1\n-hi\n)a\n.\n",
    b"insert e / x\n",
    b"insert e / -x\n",
    b"insert e /1/0 -x\n",
    b"insert e /0/1/0 -x\n",
    b"insert e /0/3 -x\n",
    b"insert e /0 -x\n",
    b"insert e /1 (b\n",
    b"insert e /0/2 Ax 2\n",
    b"insert e /0/0 -x\n",
    b"insert e /0/1 Ax 2\n",
    // 121 letters and the node itself.
    b"insert e /0/1 -xxxxxxxxxxxxxxxxxxxxxxxxxxxxxxxxxxxxxxxxxxxxxxxxxxxxxxxxxxxxxxxxxxxxxxxxxxxxxxxxxxxxxxxxxxxxxxxxxxxxxxxxxxxxxxxxxxxxxxxxx\n",
    b"export e\n",
    b"names\n",
];

const NOT_INSERTED: &[u8] =
    b"error no-document\nok 4 1\nerror pyx 1 bad-code\nerror bad-place\nerror no-node\nerror bad-place\nerror bad-place\nerror bad-place\nerror bad-place\nerror bad-place\nerror bad-place\nerror twice\nerror too-heavy /0/1 17\n(a\nAx 1\n-hi\n)a\n.\ndoc e 4\n.\n";

// Two of three attributes and the three children behind them stand in a record of their own.
const PLACES: [&[u8]; 20] = [
    b"load d\n(a\nAp 1234567890123456789012345678\nAq 1234567890123456789012345678\nAr 1234567890123456789012345678\n-12345678\n-12345678\n(b\n)b\n-12345678\n-12345678\n)a\n.\n",
    b"layout d\n",
    b"insert d /0/0 -x\n",
    b"insert d /0/1 -x\n",
    b"insert d /0/2 -x\n",
    b"insert d /0/4 As x\n",
    b"insert d /0/6 As x\n",
    b"insert d /0/8 As x\n",
    b"insert d /0/9 -x\n",
    b"insert d /0/3 Ar x\n",
    b"insert d /0/0 Aq x\n",
    b"insert d /0/3 As x\n",
    b"insert d /0/4 -x\n",
    b"insert d /0/10 -x\n",
    b"insert d /0/0 Ao x\n",
    b"insert d /0/8/0 -x\n",
    b"insert d /0/8/1 Ap x\n",
    b"insert d /0/8/0 Ap x\n",
    b"layout d\n",
    b"export d\n",
];

const PLACED: &[u8] =
    b"ok 10 2\nroot 12\nrun /0 1 5 16\n.\nerror bad-place\nerror bad-place\nerror bad-place\nerror bad-place\nerror bad-place\nerror bad-place\nerror bad-place\nerror twice\nerror twice\nok\nok\nok\nok\nok\nerror bad-place\nok\nroot 16\nrun /0 2 2 5\nrun /0 3 3 5\nrun /0 4 8 14\n.\n(a\nAo x\nAp 1234567890123456789012345678\nAq 1234567890123456789012345678\nAr 1234567890123456789012345678\nAs x\n-x\n-12345678\n-12345678\n(b\nAp x\n-x\n)b\n-12345678\n-12345678\n-x\n)a\n.\n";

const RETEXTS: [&[u8]; 8] = [
    b"retext e /0/1 x\n",
    b"load e\n(a\nAx 1\n-hi\n)a\n.\n",
    b"retext e /1 x\n",
    b"retext e /0/1/0 x\n",
    b"retext e / x\n",
    b"retext e /0 x\n",
    // 121 letters and the node itself.
    b"retext e /0/1 xxxxxxxxxxxxxxxxxxxxxxxxxxxxxxxxxxxxxxxxxxxxxxxxxxxxxxxxxxxxxxxxxxxxxxxxxxxxxxxxxxxxxxxxxxxxxxxxxxxxxxxxxxxxxxxxxxxxxxxxx\n",
    b"export e\n",
];

const NOT_RETEXTED: &[u8] =
    b"error no-document\nok 4 1\nerror no-node\nerror no-node\nerror no-content\nerror no-content\nerror too-heavy /0/1 17\n(a\nAx 1\n-hi\n)a\n.\n";

// So many times this text.
fn times(alloc: Global, often: usize, text: &[u8]) -> Result<Vec<u8>, AllocError> {
    let mut texts = Vec::new(alloc);
    for _ in 0..often {
        texts.extend_from_slice(text)?;
    }
    Ok(texts)
}

const CHANGES: &[u8] =
    b"rule a b standalone\ninsert d /0/6 -12345678\ninsert d /0/4 (b\nretext d /0/0 one\ninsert d /0/4/0 -two\nretext d /0/8\ndelete d /0/2\n";

const CHANGED: &[u8] =
    b"(a\n-one\n-12345678\n-12345678\n(b\n-two\n)b\n-12345678\n-12345678\n-12345678\n)a\n.\nroot 3\nrun /0 0 1 4\nrun /0 2 2 2\nrun /0 3 3 4\nrun /0 4 6 6\n.\n";

// All is there when the store is opened again.
#[test]
fn edits_stay(rt: HostRuntime) -> Result<(), Fail> {
    let empty = new_store(rt.alloc(), LIGHT)?;
    let script = [SIX, CHANGES].concat(rt.alloc())?;
    let image = stored(&rt, rt.alloc(), &empty, script.as_slice())?;
    let found = answers(&rt, rt.alloc(), &image, b"export d\nlayout d\n")?;
    assert_eq!(rt; found.as_slice(), CHANGED);
    Ok(())
}

const DELETES: [&[u8]; 12] = [
    b"delete e /0\n",
    b"load e\n(a\nAx 1\n-hi\n(b\n-no\n)b\n)a\n.\n",
    b"delete e /\n",
    b"delete e /1\n",
    b"delete e /0/3\n",
    b"delete e /0\n",
    b"delete e /0/2\n",
    b"export e\n",
    b"delete e /0/0\n",
    b"export e\n",
    b"delete e /0/1\n",
    b"names\n",
];

const DELETED: &[u8] =
    b"error no-document\nok 6 1\nerror bad-place\nerror no-node\nerror no-node\nerror bad-place\nok\n(a\nAx 1\n-hi\n)a\n.\nok\n(a\n-hi\n)a\n.\nerror no-node\ndoc e 3\n.\n";

// Each text but one has a record for itself, which goes with it.
#[test]
fn texts_go(rt: HostRuntime) -> Result<(), Fail> {
    let settings = Settings { limit: 64, ..HEAVY };
    let large = load_wide(rt.alloc(), b"d", 100, 1_024)?;
    let left = wide(rt.alloc(), 98, 1_024)?;
    let commands: [&[u8]; 4] = [
        large.as_slice(),
        b"delete d /0/99\n",
        b"delete d /0/0\n",
        b"export d\n",
    ];
    let output = [b"ok 102 100\nok\nok\n", left.as_slice(), b".\n"].concat(rt.alloc())?;
    check(&rt, rt.alloc(), settings, &commands, output.as_slice())
}

const DROPS: [&[u8]; 8] = [
    b"drop e\n",
    b"load e\n(a\nAx 1\n-hi\n)a\n.\n",
    b"load f\n(a\n)a\n.\n",
    b"drop e\n",
    b"drop e\n",
    b"export e\n",
    b"load e\n(b\n)b\n.\n",
    b"names\n",
];

const DROPPED: &[u8] =
    b"error no-document\nok 4 1\nok 2 1\nok\nerror no-document\nerror no-document\nok 2 1\ndoc e 2\ndoc f 2\n.\n";

// The 40 contents take more than half of the 63 pages beside the header, which come back each time.
#[test]
fn pages_come_back(rt: HostRuntime) -> Result<(), Fail> {
    let settings = Settings { limit: 64, ..HEAVY };
    let large = load_wide(rt.alloc(), b"d", 40, 2_040)?;
    let commands: [&[u8]; 5] = [
        large.as_slice(),
        b"drop d\n",
        large.as_slice(),
        b"drop d\n",
        large.as_slice(),
    ];
    check(
        &rt,
        rt.alloc(),
        settings,
        &commands,
        b"ok 42 1\nok\nok 42 1\nok\nok 42 1\n",
    )
}

// Commands, and all that a new light store is answered to them.
type Row = (&'static [&'static [u8]], &'static [u8]);

const ROWS: [Row; 13] = [
    (&LOOKS, LOOKED),
    (&RULES, RULED),
    // A part that becomes too heavy is split, and a standalone node divides an interval.
    (&PLANTS, PLANTED),
    // Texts that stay in their parent's part go with it.
    (&CLUSTERS, CLUSTERED),
    // A node of a cluster divides an interval, and a free one joins it.
    (&DIVIDES, DIVIDED),
    // The separator joins the part of the document's node, which has room.
    (&RAISES, RAISED),
    // A root that is to be alone doesn't.
    (&STAYS, STAYED),
    (&EDITS, EDITED),
    // What may not come is refused by the first reason, and leaves the document.
    (&INSERTS, NOT_INSERTED),
    // The order of attributes forbids a node whichever record its neighbour stands in.
    (&PLACES, PLACED),
    (&RETEXTS, NOT_RETEXTED),
    // A tree goes out of a document, and what is refused leaves it.
    (&DELETES, DELETED),
    // A document that went is there no more, and its name is new again.
    (&DROPS, DROPPED),
];

#[test]
fn rows_of_a_light_store(rt: HostRuntime) -> Result<(), Fail> {
    for (commands, output) in ROWS {
        check_light(&rt, rt.alloc(), commands, output)?;
    }
    Ok(())
}
