// Worked rows of transactions, and of `rename`.
use crate::rows::check_light;
use std::test::Fail;

// Of no command, and of each command that may stand in one.
const WHOLE: [&[u8]; 6] = [
    b"begin\ncommit\n",
    b"begin\nload e\n(a\nAx 1\n-hi\n)a\n.\ninsert e /0/2 (b\nretext e /0/1 bye\ndelete e /0/0\nrule a b cluster\nrename e f\nload e\n(c\n)c\n.\ndrop e\ncommit\n",
    b"names\n",
    b"rules\n",
    b"export f\n",
    b"begin\nrename f g\nrename g f\ncommit\n",
];

const WENT_THROUGH: &[u8] =
    b".\nok 4 1\nok\nok\nok\nok\nok\nok 2 1\nok\n.\ndoc f 4\n.\nrule a b cluster\n.\n(a\n-bye\n(b\n)b\n)a\n.\nok\nok\n.\n";

// The first command is refused, one in the middle, and the last one. The lines of a load count as one, and a `commit` among them ends nothing.
const REFUSES: [&[u8]; 11] = [
    b"load f\n(a\n-hi\n)a\n.\n",
    b"begin\ndrop e\ndrop f\ncommit\n",
    b"begin\nload e\n(a\n)a\n.\ninsert e /1/0 -x\ndrop f\ncommit\n",
    b"begin\ndrop f\nload f\n(a\n)a\n.\nretext f /0 x\ncommit\n",
    b"begin\ndrop f\n\ncommit\n",
    b"begin\nbegin\ndrop f\ncommit\n",
    b"begin\ndrop f\nnames\ncommit\n",
    b"begin\ndrop f\ncheckpoint\ncommit\n",
    b"begin\nload e\n(a\n)a\ncommit\n.\ncommit\n",
    b"begin\nrename f e\nrename f g\ncommit\n",
    b"export f\n",
];

const REFUSED: &[u8] =
    b"ok 3 1\nerror at 1 no-document\nerror at 2 no-node\nerror at 3 no-content\nerror at 2 syntax\nerror at 1 syntax\nerror at 2 syntax\nerror at 2 syntax\nerror at 1 pyx 3 bad-code\nerror at 2 no-document\n(a\n-hi\n)a\n.\n";

// What is no transaction: words behind the `begin`, a `commit` by itself, and one that the end cuts off.
const WRONG: [&[u8]; 6] = [
    b"load f\n(a\n)a\n.\n",
    b"begin now\ndrop f\ncommit\n",
    b"commit\n",
    b"begin\ndrop f\nload f\n(c\n)c\n.\ncommit\n",
    b"export f\n",
    b"begin\ndrop f\n",
];

const NONE: &[u8] = b"ok 2 1\nerror syntax\nerror syntax\nok\nok 2 1\n.\n(c\n)c\n.\nerror syntax\n";

// A document has another name, unless the other one is there.
const RENAMES: [&[u8]; 7] = [
    b"rename e f\n",
    b"load e\n(a\n-hi\n)a\n.\n",
    b"rename e e\n",
    b"rename e f\n",
    b"rename f -\n",
    b"load e\n(a\n)a\n.\n",
    b"rename e f\n",
];

const RENAMED: &[u8] =
    b"error no-document\nok 3 1\nerror exists\nok\nerror syntax\nok 2 1\nerror exists\n";

#[test]
fn rows_of_transactions(rt: HostRuntime) -> Result<(), Fail> {
    check_light(&rt, rt.alloc(), &WHOLE, WENT_THROUGH)?;
    check_light(&rt, rt.alloc(), &REFUSES, REFUSED)?;
    check_light(&rt, rt.alloc(), &WRONG, NONE)
}

#[test]
fn rows_of_renames(rt: HostRuntime) -> Result<(), Fail> {
    check_light(&rt, rt.alloc(), &RENAMES, RENAMED)
}
