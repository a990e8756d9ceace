// Documents, steps, and the paths that these reach, as `trials/name_steps.py cases 15 30` worked them out from the
// definition alone.

pub const CASES: [(&[u8], &[u8], &[u8]); 30] = [
    (b"(a\n)a\n", b"//#text", b""),
    (
        b"(b\n-tt\n(b\n)b\n?c i\n(c\nAb 1\n-tt\n?c i\n-t\n?a i\n(b\nAc 4\nAa 8\n?a i\n)b\n(b\nAb 8\nAc 3\n?b i\n(b\n)b\n(c\nAa 4\n(a\nAb 6\n(c\n(a\n)a\n)c\n?a i\n(b\n(b\nAb 1\nAc 9\n-ttt\n)b\n(b\n-t\n)b\n)b\n)a\n)c\n)b\n)c\n)b\n",
        b"//b",
        b"/0\n/0/1\n/0/3/5\n/0/3/6\n/0/3/6/3\n/0/3/6/4/1/3\n/0/3/6/4/1/3/0\n/0/3/6/4/1/3/1\n",
    ),
    (
        b"(b\n(a\n(c\n(a\n(c\n)c\n(a\n(c\nAc 9\n(a\n-t\n?c i\n)a\n(c\nAc 5\nAb 6\n-ttt\n)c\n)c\n-tt\n(a\nAc 0\nAb 4\n-tt\n)a\n?c i\n)a\n(c\n)c\n(b\n)b\n)a\n)c\n)a\n)b\n",
        b"//a//c/a//@b",
        b"/0/0/0/0/1/0/2/1\n/0/0/0/0/1/2/1\n",
    ),
    (b"(a\nAb 6\n)a\n", b"/a", b"/0\n"),
    (
        b"?b i\n(a\n(c\n-tt\n(b\n?b i\n)b\n)c\n(a\n(b\nAc 1\n-tt\n)b\n?b i\n)a\n-t\n(b\n-t\n)b\n)a\n?a i\n",
        b"//?b",
        b"/0\n/1/0/1/0\n/1/1/1\n",
    ),
    (
        b"?b i\n(c\nAc 6\n?b i\n(c\nAb 5\n-t\n(a\n-t\n?b i\n(b\nAa 3\n)b\n)a\n)c\n?c i\n)c\n?c i\n",
        b"/c//c//a/?b",
        b"/1/2/2/1\n",
    ),
    (
        b"?c i\n(a\n-ttt\n(a\nAc 9\n(a\n(a\n(b\n-ttt\n)b\n(a\n)a\n?c i\n)a\n(c\n-tt\n(b\n(a\n)a\n)b\n)c\n)a\n-t\n?c i\n?c i\n(a\n(b\n-tt\n(c\nAb 0\nAa 7\n)c\n)b\n)a\n)a\n)a\n",
        b"//a",
        b"/1\n/1/1\n/1/1/1\n/1/1/1/0\n/1/1/1/0/1\n/1/1/1/1/1/0\n/1/1/5\n",
    ),
    (b"(b\nAb 2\nAc 9\n-t\n?a i\n)b\n", b"//#text", b"/0/2\n"),
    (
        b"?c i\n(c\nAa 0\nAb 7\n(c\n(b\n(a\nAc 5\n(c\nAa 1\nAc 1\n(b\n(c\n)c\n)b\n)c\n)a\n)b\n)c\n)c\n",
        b"//c/b/a",
        b"/1/2/0/0\n",
    ),
    (
        b"(a\nAc 8\n(c\n?a i\n(c\nAb 5\nAc 7\n)c\n?a i\n(a\nAc 6\n(a\nAb 3\n(a\n(a\n(b\n-ttt\n?c i\n)b\n)a\n)a\n)a\n)a\n)c\n)a\n?c i\n",
        b"/a/@c",
        b"/0/0\n",
    ),
    (b"(a\nAc 8\nAa 0\n)a\n", b"//a/@a", b"/0/1\n"),
    (
        b"?a i\n(c\n(c\n?c i\n(a\n(c\n(c\nAa 5\nAc 1\n?a i\n(b\n)b\n)c\n)c\n)a\n)c\n)c\n?b i\n",
        b"//?c",
        b"/1/0/0\n",
    ),
    (b"?a i\n(b\n?c i\n)b\n?a i\n", b"/?a", b"/0\n/2\n"),
    (
        b"(c\n(b\n(b\nAc 7\nAa 5\n?b i\n)b\n(a\nAa 3\n(c\n(b\n(c\n(b\nAb 2\nAa 0\n-ttt\n)b\n)c\n(a\nAa 7\n(c\n)c\n)a\n(b\nAa 2\n(c\nAc 5\n)c\n)b\n?a i\n(a\n)a\n(b\nAa 2\nAc 6\n?a i\n(a\n-ttt\n)a\n)b\n)b\n(c\nAb 8\nAc 4\n(b\nAa 1\nAc 8\n)b\n)c\n(b\n)b\n(b\n)b\n)c\n)a\n)b\n)c\n",
        b"//b/a//c",
        b"/0/0/1/1\n/0/0/1/1/0/0\n/0/0/1/1/0/1/1\n/0/0/1/1/0/2/1\n/0/0/1/1/1\n",
    ),
    (
        b"(c\n(a\nAc 6\n)a\n(b\n(c\n(a\nAb 3\n(c\nAc 9\n(c\n(a\n-t\n?a i\n)a\n)c\n(b\nAa 9\n(a\n)a\n-tt\n?c i\n)b\n)c\n)a\n)c\n)b\n)c\n",
        b"//c//a//c//c",
        b"/0/1/0/0/1/1\n",
    ),
    (
        b"(a\nAc 1\nAa 7\n(c\n?c i\n(b\nAb 8\n(c\n(c\nAc 7\nAa 7\n)c\n)c\n)b\n)c\n)a\n",
        b"//a//b//@b",
        b"/0/2/1/0\n",
    ),
    (
        b"(b\nAc 0\nAa 8\n(a\nAb 3\nAa 4\n)a\n)b\n",
        b"/#text//@a",
        b"",
    ),
    (
        b"?c i\n(a\n-t\n(c\n(c\n?a i\n(a\n?a i\n)a\n(a\nAa 4\n-ttt\n(a\n-ttt\n(b\n)b\n-tt\n)a\n)a\n(a\n(a\n-t\n)a\n?c i\n(a\n?b i\n(a\n-tt\n(a\nAc 7\nAb 2\n-ttt\n?b i\n)a\n)a\n)a\n-t\n)a\n)c\n)c\n)a\n",
        b"//a/c/c//a//b",
        b"/1/1/0/2/2/1\n",
    ),
    (
        b"(b\n?a i\n(c\n(a\n(b\nAb 9\n)b\n(a\n(b\n(c\n(c\n-tt\n?a i\n)c\n?c i\n(b\n-ttt\n)b\n)c\n(b\nAc 7\n)b\n)b\n-t\n)a\n-ttt\n)a\n)c\n?c i\n(c\nAc 4\n(a\nAa 3\n-ttt\n?c i\n(c\n(c\n)c\n(a\nAa 4\nAb 8\n(c\n)c\n)a\n)c\n)a\n)c\n)b\n?c i\n",
        b"/b//c//a/@a",
        b"/0/3/1/0\n/0/3/1/3/1/0\n",
    ),
    (
        b"(a\n(c\n(b\nAb 3\nAc 6\n(b\n-t\n)b\n(b\n(b\n(a\nAa 0\n)a\n(b\nAc 9\n(a\nAb 7\nAc 0\n)a\n)b\n?a i\n)b\n(a\n)a\n)b\n)b\n)c\n)a\n?a i\n",
        b"/a//@a/a",
        b"",
    ),
    (b"(c\n(a\n)a\n)c\n", b"/c//a", b"/0/0\n"),
    (
        b"(b\n(a\n?b i\n(a\n)a\n(c\nAb 4\n?c i\n(a\nAb 5\n(b\n(c\n(b\nAc 6\n)b\n-t\n?b i\n)c\n(a\n(b\n)b\n(c\n-t\n)c\n)a\n(b\n)b\n(c\nAc 5\n)c\n-ttt\n?c i\n)b\n(c\n?a i\n)c\n)a\n-t\n(b\n(c\nAc 7\n(b\nAb 2\n)b\n)c\n)b\n)c\n)a\n)b\n",
        b"//b//c/#text",
        b"/0/0/2/2/1/0/1\n/0/0/2/2/1/1/1/0\n/0/0/2/3\n",
    ),
    (
        b"(c\n(b\n(c\nAc 3\n(c\n?b i\n)c\n-t\n(a\n(a\n)a\n(a\nAb 6\n(a\nAb 2\nAa 6\n(b\n-tt\n?a i\n)b\n(b\n)b\n(c\n-t\n)c\n(a\n-t\n?a i\n-tt\n)a\n)a\n(a\n)a\n(b\nAc 6\n(b\n?b i\n)b\n)b\n)a\n)a\n)c\n)b\n)c\n",
        b"//c/b/c/@a/a/a/a",
        b"",
    ),
    (
        b"(a\n-tt\n(b\nAb 4\nAa 2\n?c i\n(b\n(b\nAc 8\n)b\n-tt\n?a i\n)b\n(a\n(b\nAa 0\n?b i\n(c\n(a\n(c\nAa 5\nAb 3\n)c\n(b\nAb 4\n-ttt\n)b\n-tt\n(a\n)a\n?c i\n)a\n)c\n)b\n)a\n)b\n)a\n",
        b"//?c",
        b"/0/1/2\n/0/1/4/0/2/0/4\n",
    ),
    (
        b"?b i\n(c\n(a\n?c i\n(c\n(c\nAb 3\nAc 4\n(b\n)b\n)c\n?b i\n(a\n(a\nAc 7\nAb 4\n(a\n-t\n)a\n)a\n)a\n)c\n)a\n)c\n",
        b"//#text//c/a//a",
        b"",
    ),
    (
        b"(c\n(b\n)b\n(a\n(b\nAc 7\nAa 3\n(c\nAb 1\n)c\n)b\n)a\n)c\n?c i\n",
        b"/c//b//#text",
        b"",
    ),
    (
        b"(a\n(b\n(b\n(c\n(a\nAc 9\nAb 8\n?c i\n(a\nAb 3\n-ttt\n?b i\n)a\n(b\nAb 9\nAc 2\n(a\n-ttt\n?b i\n)a\n)b\n)a\n(a\n)a\n)c\n(a\n-t\n(a\nAc 9\nAb 5\n(c\n?a i\n(b\n-t\n)b\n(c\nAb 1\n)c\n(b\nAa 3\n-tt\n)b\n)c\n)a\n)a\n)b\n)b\n)a\n",
        b"/?b//b//c",
        b"",
    ),
    (
        b"?a i\n(c\nAc 8\n-ttt\n(b\n)b\n-t\n?a i\n?b i\n)c\n",
        b"//@a",
        b"",
    ),
    (
        b"?a i\n(c\nAb 0\nAc 3\n(a\n?c i\n?c i\n?b i\n(b\n)b\n(b\n)b\n(a\nAb 2\nAc 0\n(b\n)b\n-t\n)a\n(c\n?b i\n)c\n)a\n)c\n",
        b"//c/a/b",
        b"/1/2/3\n/1/2/4\n",
    ),
    (
        b"?b i\n(c\n-t\n(a\n(c\n(b\nAc 4\n)b\n)c\n?b i\n?a i\n)a\n?c i\n(c\n(a\nAb 2\n)a\n)c\n(a\nAb 4\nAa 5\n(c\nAa 8\n)c\n)a\n)c\n",
        b"//c//@c",
        b"/1/1/0/0/0\n",
    ),
];
