// Sessions one after the other, and what a store holds behind each of their commands.

/// Lines of a script, their reply, and which state the store is in then.
pub type Step = (&'static [u8], &'static [u8], usize);

/// A session: its command line, the state in which it begins, and its steps.
#[derive(Clone, Copy)]
pub struct Session {
    pub words: &'static [&'static str],
    pub begins: usize,
    pub steps: &'static [Step],
}

/// Sessions one after the other, whose input comes in pieces of so many bytes, and what a store answers in each state to lines
/// that look at it and then go on. In the first state there is no store.
#[derive(Clone, Copy)]
pub struct Story {
    pub sessions: &'static [Session],
    pub piece: u32,
    pub looks: &'static [u8],
    pub left: &'static [&'static [u8]],
}

/// A store is made, a document comes, is asked, edited, by a transaction too, and dropped, and comes again.
pub const SHORT: Story = Story {
    sessions: &[
        Session {
            words: &["s", "init", "16"],
            begins: 0,
            steps: &[(b"", b"ok\n", 1)],
        },
        Session {
            words: &["s", "run"],
            begins: 1,
            steps: &[
                (b"load e\n(a\nAx 1\n-hi\n)a\n.\n", b"ok 4 1\n", 2),
                (b"insert e /0/1 Ax 2\n", b"error twice\n", 2),
                (b"get e /0\n", b"node 2 (a\n", 2),
                (b"retext e /0 x\n", b"error no-content\n", 2),
                (b"retext e /0/1 bye\n", b"ok\n", 3),
                (b"get e /0/1\n", b"node 0 -bye\n", 3),
                (b"get e /9\n", b"error no-node\n", 3),
                (b"get f /\n", b"error no-document\n", 3),
                (b"names\n", b"doc e 4\n.\n", 3),
                (b"export e\n", b"(a\nAx 1\n-bye\n)a\n.\n", 3),
                (
                    b"begin\ninsert e /0/2 (b\nretext e /0/1 on\ncommit\n",
                    b"ok\nok\n.\n",
                    6,
                ),
                (
                    b"begin\ndrop e\ndrop f\ncommit\n",
                    b"error at 2 no-document\n",
                    6,
                ),
                (b"drop e\n", b"ok\n", 1),
                (b"names\n", b".\n", 1),
                (b"checkpoint\n", b"ok\n", 1),
            ],
        },
        Session {
            words: &["s", "run"],
            begins: 1,
            steps: &[
                (b"names\n", b".\n", 1),
                (b"load e\n(a\nAx 1\n-hi\n)a\n.\n", b"ok 4 1\n", 2),
                (b"rule a #text cluster\n", b"ok\n", 4),
                (b"checkpoint\n", b"ok\n", 4),
                (b"delete e /0/0\n", b"ok\n", 5),
                (b"export e\n", b"(a\n-hi\n)a\n.\n", 5),
            ],
        },
    ],
    piece: 30,
    looks: b"names\nexport e\nrules\nload y\n(a\n)a\n.\nexport y\ncheckpoint\nexport e\n",
    left: &[
        b"",
        b".\nerror no-document\n.\nok 2 1\n(a\n)a\n.\nok\nerror no-document\n",
        b"doc e 4\n.\n(a\nAx 1\n-hi\n)a\n.\n.\nok 2 1\n(a\n)a\n.\nok\n(a\nAx 1\n-hi\n)a\n.\n",
        b"doc e 4\n.\n(a\nAx 1\n-bye\n)a\n.\n.\nok 2 1\n(a\n)a\n.\nok\n(a\nAx 1\n-bye\n)a\n.\n",
        b"doc e 4\n.\n(a\nAx 1\n-hi\n)a\n.\nrule a #text cluster\n.\nok 2 1\n(a\n)a\n.\nok\n(a\nAx 1\n-hi\n)a\n.\n",
        b"doc e 3\n.\n(a\n-hi\n)a\n.\nrule a #text cluster\n.\nok 2 1\n(a\n)a\n.\nok\n(a\n-hi\n)a\n.\n",
        b"doc e 5\n.\n(a\nAx 1\n-on\n(b\n)b\n)a\n.\n.\nok 2 1\n(a\n)a\n.\nok\n(a\nAx 1\n-on\n(b\n)b\n)a\n.\n",
    ],
};

/// A part is split, contents go to lists of their own and back, rules come and go, and so do documents.
pub const LONG: Story = Story {
    sessions: &[
        Session {
            words: &["s", "init", "16", "50", "4"],
            begins: 0,
            steps: &[(b"", b"ok\n", 1)],
        },
        Session {
            words: &["s", "run"],
            begins: 1,
            steps: &[
                (
                    b"load d\n(a\n-12345678\n-12345678\n-12345678\n-12345678\n-12345678\n-12345678\n)a\n.\n",
                    b"ok 8 1\n",
                    2,
                ),
                (b"insert d /0/6 -12345678\n", b"ok\n", 3),
                (b"load f\n(a\nAx ~\n-^\n)a\n.\n", b"ok 4 1\n", 4),
                (b"retext f /0/1 *\n", b"ok\n", 5),
                (b"retext f /0/1 !\n", b"error too-heavy /0/1 129\n", 5),
                (b"rule a #text cluster\n", b"ok\n", 6),
                (b"retext f /0/1 hi\n", b"ok\n", 7),
                (b"drop d\n", b"ok\n", 8),
                (b"checkpoint\n", b"ok\n", 8),
                (b"insert f /0/2 ?p ~\n", b"ok\n", 9),
            ],
        },
        Session {
            words: &["s", "run"],
            begins: 9,
            steps: &[
                (b"load f\n(a\n)a\n.\n", b"error exists\n", 9),
                (b"delete f /0/0\n", b"ok\n", 10),
                (b"rule a #text free\n", b"ok\n", 11),
                (b"drop f\n", b"ok\n", 1),
                (b"checkpoint\n", b"ok\n", 1),
            ],
        },
    ],
    piece: 65_536,
    looks: b"names\nlayout d\nlayout f\nexport d\nexport f\nrules\nload y\n(a\n-~\n)a\n.\ncheckpoint\nnames\n",
    left: &[
        b"",
        b".\nerror no-document\nerror no-document\nerror no-document\nerror no-document\n.\nok 3 1\nok\ndoc y 3\n.\n",
        b"doc d 8\n.\nroot 15\n.\nerror no-document\n(a\n-12345678\n-12345678\n-12345678\n-12345678\n-12345678\n-12345678\n)a\n.\nerror no-document\n.\nok 3 1\nok\ndoc d 8\ndoc y 3\n.\n",
        b"doc d 9\n.\nroot 3\nrun /0 0 1 4\nrun /0 2 6 10\n.\nerror no-document\n(a\n-12345678\n-12345678\n-12345678\n-12345678\n-12345678\n-12345678\n-12345678\n)a\n.\nerror no-document\n.\nok 3 1\nok\ndoc d 9\ndoc y 3\n.\n",
        b"doc d 9\ndoc f 4\n.\nroot 3\nrun /0 0 1 4\nrun /0 2 6 10\n.\nroot 8\n.\n(a\n-12345678\n-12345678\n-12345678\n-12345678\n-12345678\n-12345678\n-12345678\n)a\n.\n(a\nAx ~\n-^\n)a\n.\n.\nok 3 1\nok\ndoc d 9\ndoc f 4\ndoc y 3\n.\n",
        b"doc d 9\ndoc f 4\n.\nroot 3\nrun /0 0 1 4\nrun /0 2 6 10\n.\nroot 8\n.\n(a\n-12345678\n-12345678\n-12345678\n-12345678\n-12345678\n-12345678\n-12345678\n)a\n.\n(a\nAx ~\n-*\n)a\n.\n.\nok 3 1\nok\ndoc d 9\ndoc f 4\ndoc y 3\n.\n",
        b"doc d 9\ndoc f 4\n.\nroot 3\nrun /0 0 1 4\nrun /0 2 6 10\n.\nroot 8\n.\n(a\n-12345678\n-12345678\n-12345678\n-12345678\n-12345678\n-12345678\n-12345678\n)a\n.\n(a\nAx ~\n-*\n)a\n.\nrule a #text cluster\n.\nok 3 1\nok\ndoc d 9\ndoc f 4\ndoc y 3\n.\n",
        b"doc d 9\ndoc f 4\n.\nroot 3\nrun /0 0 1 4\nrun /0 2 6 10\n.\nroot 8\n.\n(a\n-12345678\n-12345678\n-12345678\n-12345678\n-12345678\n-12345678\n-12345678\n)a\n.\n(a\nAx ~\n-hi\n)a\n.\nrule a #text cluster\n.\nok 3 1\nok\ndoc d 9\ndoc f 4\ndoc y 3\n.\n",
        b"doc f 4\n.\nerror no-document\nroot 8\n.\nerror no-document\n(a\nAx ~\n-hi\n)a\n.\nrule a #text cluster\n.\nok 3 1\nok\ndoc f 4\ndoc y 3\n.\n",
        b"doc f 5\n.\nerror no-document\nroot 11\n.\nerror no-document\n(a\nAx ~\n-hi\n?p ~\n)a\n.\nrule a #text cluster\n.\nok 3 1\nok\ndoc f 5\ndoc y 3\n.\n",
        b"doc f 4\n.\nerror no-document\nroot 8\n.\nerror no-document\n(a\n-hi\n?p ~\n)a\n.\nrule a #text cluster\n.\nok 3 1\nok\ndoc f 4\ndoc y 3\n.\n",
        b"doc f 4\n.\nerror no-document\nroot 8\n.\nerror no-document\n(a\n-hi\n?p ~\n)a\n.\n.\nok 3 1\nok\ndoc f 4\ndoc y 3\n.\n",
    ],
};
