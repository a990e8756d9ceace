// Streams and what comes of them, however they are cut.
use nx_pyx::{PyxError, PyxFault, ReadError, Reader, write};
use nx_tree::{Bytes, NoMemory};
use std::alloc::Global;
use std::process::Abort;
use std::test::Fail;

// Streams, and the texts of their documents.
const DOCUMENTS: [(&[u8], &[u8]); 19] = [
    (b"(a\n-hi\n)a\n", b"(a\n-hi\n)a\n"),
    (b"(a\nAx 1\n-hi\n)a\n", b"(a\nAx 1\n-hi\n)a\n"),
    (b"?p 1\n(a\n)a\n?q\n", b"?p 1\n(a\n)a\n?q\n"),
    // The last line may lack its LF, and a CR before an LF or the end is dropped.
    (b"(a\n-a\\\\b\\qc\r\n)a", b"(a\n-a\\\\b\\\\qc\n)a\n"),
    (b"(a\n)a", b"(a\n)a\n"),
    (b"(a\r\n-hi\r\n)a\r\n", b"(a\n-hi\n)a\n"),
    (b"(a\r\n)a\r", b"(a\n)a\n"),
    (b"(a\n-\r\n)a\n", b"(a\n-\n)a\n"),
    // Only one CR is, and none elsewhere.
    (b"(a\n-x\ry\r\r\n)a\n", b"(a\n-x\\ry\\r\n)a\n"),
    // Escapes, and a backslash that begins none.
    (
        b"(a\nAx \\n\\t\\r\\\\\n-\\n\\t\\r\\\\\\x\\\n?p \\n \\N\n)a\n",
        b"(a\nAx \\n\\t\\r\\\\\n-\\n\\t\\r\\\\\\\\x\\\\\n?p \\n \\\\N\n)a\n",
    ),
    // A name ends at the first space, and what is behind it may be empty.
    (
        b"(a\nAx\nAy \nAz  1 2\n?p\n?q \n?r  1 2\n)a\n",
        b"(a\nAx \nAy \nAz  1 2\n?p\n?q\n?r  1 2\n)a\n",
    ),
    // Elements may have the same attributes, and names differ by one byte.
    (
        b"(a\nAx 1\nAX 1\nAxx 1\n(b\nAx 1\n)b\n(b\nAx 1\n)b\n)a\n",
        b"(a\nAx 1\nAX 1\nAxx 1\n(b\nAx 1\n)b\n(b\nAx 1\n)b\n)a\n",
    ),
    (
        b"(a\nAb\nAa\nAab\nA\xff\n(b\nA\xff\nAab\nAa\nAb\n)b\n)a\n",
        b"(a\nAb \nAa \nAab \nA\xff \n(b\nA\xff \nAab \nAa \nAb \n)b\n)a\n",
    ),
    // Instructions stand anywhere.
    (
        b"?p\n?p\n(a\nAx 1\n?p\n-y\n?p\n)a\n?p\n",
        b"?p\n?p\n(a\nAx 1\n?p\n-y\n?p\n)a\n?p\n",
    ),
    (b"(a\n-x\ty\n)a\n", b"(a\n-x\\ty\n)a\n"),
    // Neighbouring texts stay apart, the empty ones too.
    (b"(a\n-x\n-\n-\n-y\n)a\n", b"(a\n-x\n-\n-\n-y\n)a\n"),
    (
        b"(a\n(b\n(a\n)a\n-x\n)b\n-y\n(b\n)b\n)a\n",
        b"(a\n(b\n(a\n)a\n-x\n)b\n-y\n(b\n)b\n)a\n",
    ),
    (
        b"(!$-.(AZ\x7f\x80\xff\n- \0\x0b#*/?@-\xff\n)!$-.(AZ\x7f\x80\xff\n",
        b"(!$-.(AZ\x7f\x80\xff\n- \0\x0b#*/?@-\xff\n)!$-.(AZ\x7f\x80\xff\n",
    ),
    (
        b"(a\nA\xff \0\n?\x80 \x0b\n)a\n",
        b"(a\nA\xff \0\n?\x80 \x0b\n)a\n",
    ),
];

// Faulty streams in two parts, and the line and the fault of each. The fault is told with the first
// byte of the second part, and at the end where that part is empty.
const FAULTS: [(&[u8], &[u8], u64, PyxFault); 61] = [
    // A line is empty, or its first byte is no code.
    (b"", b"\n", 1, PyxFault::BadCode),
    (b"", b"\r\n(a\n)a\n", 1, PyxFault::BadCode),
    (b"", b"\r", 1, PyxFault::BadCode),
    (b"(a\n)a\n", b"\r", 3, PyxFault::BadCode),
    (b"(a\n)a\n", b"\n", 3, PyxFault::BadCode),
    (b"", b"x\n", 1, PyxFault::BadCode),
    (b"", b"x", 1, PyxFault::BadCode),
    (b"(a\n", b" -x\n)a\n", 2, PyxFault::BadCode),
    (b"(a\n-x\n", b"\\n\n)a\n", 3, PyxFault::BadCode),
    (b"(a\n", b"ax 1\n)a\n", 2, PyxFault::BadCode),
    // No name.
    (b"(", b"\n)\n", 1, PyxFault::BadName),
    (b"(a b", b"\n)a b\n", 1, PyxFault::BadName),
    (b"(a ", b"\n)a \n", 1, PyxFault::BadName),
    (b"(a\0", b"\n)a\0\n", 1, PyxFault::BadName),
    (b"(a\x1f", b"\n)a\x1f\n", 1, PyxFault::BadName),
    (b"(#", b"\n)#\n", 1, PyxFault::BadName),
    (b"(*", b"\n)*\n", 1, PyxFault::BadName),
    (b"(/", b"\n)/\n", 1, PyxFault::BadName),
    (b"(?", b"\n)?\n", 1, PyxFault::BadName),
    (b"(@", b"\n)@\n", 1, PyxFault::BadName),
    (b"(a\\", b"\n)a\\\n", 1, PyxFault::BadName),
    (b"(a\r\r", b"\n)a\r\n", 1, PyxFault::BadName),
    (b"(a\n)a\n(b\t", b"\n)b\t\n", 3, PyxFault::BadName),
    (b"(a\nA", b"\n)a\n", 2, PyxFault::BadName),
    (b"(a\nA 1", b"\n)a\n", 2, PyxFault::BadName),
    (b"(a\n-x\nAx/ 1", b"\n)a\n", 3, PyxFault::BadName),
    (b"?", b"\n(a\n)a\n", 1, PyxFault::BadName),
    (b"? p", b"\n(a\n)a\n", 1, PyxFault::BadName),
    (b"(a\n)a\n?p\t1", b"", 3, PyxFault::BadName),
    // No place, or another end.
    (b")a", b"\n", 1, PyxFault::BadNesting),
    (b"-x", b"\n(a\n)a\n", 1, PyxFault::BadNesting),
    (b"-x", b"", 1, PyxFault::BadNesting),
    (b"?p\n-", b"\n(a\n)a\n", 2, PyxFault::BadNesting),
    (b"(a\n)b", b"\n)a\n", 2, PyxFault::BadNesting),
    (b"(a\n)b", b"\nx\n", 2, PyxFault::BadNesting),
    (b"(a\n)aa", b"\n)a\n", 2, PyxFault::BadNesting),
    (b"(aa\n)a", b"\n)aa\n", 2, PyxFault::BadNesting),
    (b"(a\n)", b"\n)a\n", 2, PyxFault::BadNesting),
    (b"(a\n)a\t", b"\n", 2, PyxFault::BadNesting),
    (b"(a\n(b\n)a", b"\n)b\n", 3, PyxFault::BadNesting),
    (b"(a\n)a\n(b", b"\n)b\n", 3, PyxFault::BadNesting),
    (b"(a\n)a\n(b", b"", 3, PyxFault::BadNesting),
    (b"(a\n)a\n-x", b"\n", 3, PyxFault::BadNesting),
    (b"(a\n)a\n)a", b"\n", 3, PyxFault::BadNesting),
    (b"(a\n-x\n)a\r\n)a", b"\n", 4, PyxFault::BadNesting),
    // An attribute that comes too late, or again.
    (b"Ax 1", b"\n(a\n)a\n", 1, PyxFault::BadAttribute),
    (b"(a\n-x\nAb c", b"\n)a\n", 3, PyxFault::BadAttribute),
    (b"(a\n?p\nAb c", b"\n)a\n", 3, PyxFault::BadAttribute),
    (b"(a\n(b\n)b\nAb c", b"\n)a\n", 4, PyxFault::BadAttribute),
    (b"(a\nAx 1\n-y\nAx 1", b"\n)a\n", 4, PyxFault::BadAttribute),
    (b"(a\n)a\nAb c", b"", 3, PyxFault::BadAttribute),
    (b"(a\nAx 1\nAy 1\nAx 2", b"\n)a\n", 4, PyxFault::Twice),
    (b"(a\nAx\nAx ", b"", 3, PyxFault::Twice),
    (b"(a\nAb\nAa\nAb", b"\n)a\n", 4, PyxFault::Twice),
    (b"(a\nAb\nAa\nAab\nAa", b"\n)a\n", 5, PyxFault::Twice),
    (
        b"(a\nAb\nAa\nAab\nA\xff\nAab",
        b"\n)a\n",
        6,
        PyxFault::Twice,
    ),
    // The end.
    (b"(a\n", b"", 1, PyxFault::Unclosed),
    (b"(a", b"", 1, PyxFault::Unclosed),
    (b"(a\n(b\n)b\n-", b"", 4, PyxFault::Unclosed),
    (b"?p\n?q", b"", 2, PyxFault::Empty),
    (b"", b"", 0, PyxFault::Empty),
];

// A stream at a limit or past it: a prefix, what comes behind it so many times, an end, and the number
// of end lines behind that. The last byte before those tells the fault, which is in that line.
type Long = (
    &'static [u8],
    &'static [u8],
    usize,
    &'static [u8],
    usize,
    Option<(u64, PyxFault)>,
);

const LINES: [Long; 2] = [
    (b"(a\n-", b"x", 1_048_576, b"\n", 1, None),
    (
        b"(a\n-",
        b"x",
        1_048_577,
        b"",
        0,
        Some((2, PyxFault::LongLine)),
    ),
];

const DEEP: [Long; 5] = [
    (b"", b"(a\n", 256, b"", 256, None),
    (
        b"",
        b"(a\n",
        256,
        b"(a\n",
        257,
        Some((257, PyxFault::TooDeep)),
    ),
    (b"", b"(a\n", 257, b"", 0, Some((257, PyxFault::TooDeep))),
    (
        b"",
        b"(a\n",
        256,
        b"-x\n",
        256,
        Some((257, PyxFault::TooDeep)),
    ),
    (
        b"",
        b"(a\n",
        256,
        b"Ax 1\n",
        256,
        Some((257, PyxFault::TooDeep)),
    ),
];

const MANY: [Long; 2] = [
    (b"(a\n", b"-\n", 524_286, b"", 1, None),
    (
        b"(a\n",
        b"-\n",
        524_286,
        b"-\n",
        1,
        Some((524_288, PyxFault::TooMany)),
    ),
];

// How a stream is cut.
#[derive(Clone, Copy)]
enum Cutting {
    // Into pieces of that size.
    Pieces(usize),
    // The same behind a first piece of each length up to that size, so that just one of the runs cuts
    // at any one place.
    Shifted(usize),
    // In two, at each place so near to either end or to the byte that tells the fault.
    Near(usize),
}

// In two at each place, in one piece among them, and byte by byte.
const SHORT: [Cutting; 2] = [Cutting::Near(usize::MAX), Cutting::Pieces(1)];

// In one piece, in the blocks of a run, byte by byte, and at each place. A run for each place of a long
// stream would take too long, so one cuts at many, and only near the limit and the ends at one alone.
const LONG: [Cutting; 5] = [
    Cutting::Pieces(usize::MAX),
    Cutting::Pieces(65_536),
    Cutting::Pieces(1),
    Cutting::Shifted(64),
    Cutting::Near(64),
];

// The same in fewer runs, where each takes longer.
const LONG_AND_SLOW: [Cutting; 5] = [
    Cutting::Pieces(usize::MAX),
    Cutting::Pieces(65_536),
    Cutting::Pieces(1),
    Cutting::Shifted(32),
    Cutting::Near(4),
];

// The stream in a first piece of that length, and pieces of that size behind it.
fn pieces(alloc: Global, stream: &[u8], first: usize, size: usize) -> Result<Vec<&[u8]>, NoMemory> {
    let (prefix, back) = stream.split_at(first.min(stream.len()));
    let mut cut = Vec::new(alloc);
    cut.push(prefix)?;
    push_pieces(&mut cut, back, size)?;
    Ok(cut)
}

fn push_pieces<'a>(cut: &mut Vec<&'a [u8]>, back: &'a [u8], size: usize) -> Result<(), NoMemory> {
    for piece in back.chunks(size.max(1)) {
        cut.push(piece)?;
    }
    Ok(())
}

fn feed(reader: &mut Reader, piece: &[u8]) -> Result<(), ReadError> {
    reader.feed(piece)
}

// The text of what was read, or its fault.
fn finish(alloc: Global, reader: Reader) -> Result<Bytes, ReadError> {
    let tree = reader.finish()?;
    Ok(write(alloc, &tree)?)
}

// A stream in these pieces has that outcome, the text of its document or its fault. A fault is told
// by the piece that has the byte of that number, or at the end, and from then on. Want of memory may
// come instead.
fn check(
    rt: &impl Abort,
    alloc: Global,
    pieces: &[&[u8]],
    told: usize,
    want: Result<&[u8], PyxError>,
) -> Result<(), Fail> {
    let mut reader = Reader::new(alloc)?;
    let (before, len, error) = fed(&mut reader, pieces);
    match error {
        Some(error) => {
            check_stopped(rt, alloc, reader, error)?;
            check_told(rt, before <= told && told < len, want, error);
            Ok(())
        }
        None => check_end(rt, finish(alloc, reader), len == told, want),
    }
}

// Feeds the pieces up to the first error, and says how many bytes that were before the last of them and with it.
fn fed(reader: &mut Reader, pieces: &[&[u8]]) -> (usize, usize, Option<ReadError>) {
    let mut before = 0usize;
    let mut len = 0usize;
    for piece in pieces {
        before = len;
        len = before.saturating_add(piece.len());
        if let Err(error) = feed(reader, piece) {
            return (before, len, Some(error));
        }
    }
    (before, len, None)
}

// The fault is that of a stream with this outcome, and comes where it is told.
fn check_told(rt: &impl Abort, tells: bool, want: Result<&[u8], PyxError>, error: ReadError) {
    check_said(rt, tells, error);
    check_said(rt, is_fault(want, error), error);
}

fn check_said(rt: &impl Abort, is_right: bool, error: ReadError) {
    assert_eq!(rt; is_right, true, "{error:?}");
}

// Whether that is the error of a stream with this outcome.
fn is_fault(want: Result<&[u8], PyxError>, error: ReadError) -> bool {
    match (want, error) {
        (Err(fault), ReadError::Pyx(found)) => fault == found,
        _ => false,
    }
}

// What told a fault tells it from then on.
fn check_stopped(
    rt: &impl Abort,
    alloc: Global,
    mut reader: Reader,
    error: ReadError,
) -> Result<(), Fail> {
    check_error(rt, feed(&mut reader, b"(a\n)a\n"), error);
    check_error(rt, finished(reader), error);
    match error {
        ReadError::Memory => Err(error.into()),
        ReadError::Pyx(_) => Ok(()),
    }
}

fn finished(reader: Reader) -> Result<(), ReadError> {
    let _tree = reader.finish()?;
    Ok(())
}

fn check_error(rt: &impl Abort, found: Result<(), ReadError>, error: ReadError) {
    assert_eq!(rt; found, Err(error));
}

// At the end of a stream comes its text, or its fault where the end tells that.
fn check_end(
    rt: &impl Abort,
    found: Result<Bytes, ReadError>,
    tells: bool,
    want: Result<&[u8], PyxError>,
) -> Result<(), Fail> {
    match found {
        Ok(text) => {
            check_outcome(rt, Ok(text.as_slice()), want);
            Ok(())
        }
        Err(ReadError::Pyx(error)) => {
            check_said(rt, tells, ReadError::Pyx(error));
            check_outcome(rt, Err(error), want);
            Ok(())
        }
        Err(ReadError::Memory) => Err(ReadError::Memory.into()),
    }
}

fn check_outcome(rt: &impl Abort, found: Result<&[u8], PyxError>, want: Result<&[u8], PyxError>) {
    assert_eq!(rt; found, want);
}

// The stream has that outcome cut behind a first piece into pieces of that size.
fn check_pieces(
    rt: &impl Abort,
    alloc: Global,
    stream: &[u8],
    told: usize,
    want: Result<&[u8], PyxError>,
    (first, size): (usize, usize),
) -> Result<(), Fail> {
    let cut = pieces(alloc, stream, first, size)?;
    check(rt, alloc, cut.as_slice(), told, want)
}

// The stream has that outcome cut in two at that place.
fn check_cut(
    rt: &impl Abort,
    alloc: Global,
    stream: &[u8],
    told: usize,
    want: Result<&[u8], PyxError>,
    cut: usize,
) -> Result<(), Fail> {
    let (prefix, back) = stream.split_at(cut.min(stream.len()));
    check(rt, alloc, &[prefix, back], told, want)
}

// Whether a place is so near to either end or to the byte that tells the fault.
fn is_near(cut: usize, told: usize, len: usize, distance: usize) -> bool {
    let place = cut.abs_diff(told).min(len.saturating_sub(cut));
    place.min(cut) <= distance
}

// The stream has that outcome cut in that way.
fn check_cutting(
    rt: &impl Abort,
    alloc: Global,
    stream: &[u8],
    told: usize,
    want: Result<&[u8], PyxError>,
    cutting: Cutting,
) -> Result<(), Fail> {
    match cutting {
        Cutting::Pieces(size) => check_pieces(rt, alloc, stream, told, want, (size, size))?,
        Cutting::Shifted(size) => {
            for first in 1..=size {
                check_pieces(rt, alloc, stream, told, want, (first, size))?;
            }
        }
        Cutting::Near(distance) => {
            for cut in 0..=stream.len() {
                if is_near(cut, told, stream.len(), distance) {
                    check_cut(rt, alloc, stream, told, want, cut)?;
                }
            }
        }
    }
    Ok(())
}

// The stream has that outcome cut in each of these ways.
fn check_cuttings(
    rt: &impl Abort,
    alloc: Global,
    stream: &[u8],
    told: usize,
    want: Result<&[u8], PyxError>,
    cuttings: &[Cutting],
) -> Result<(), Fail> {
    for cutting in cuttings {
        check_cutting(rt, alloc, stream, told, want, *cutting)?;
    }
    Ok(())
}

#[test]
fn documents(rt: HostRuntime) -> Result<(), Fail> {
    for (stream, text) in DOCUMENTS {
        check_cuttings(&rt, rt.alloc(), stream, stream.len(), Ok(text), &SHORT)?;
    }
    Ok(())
}

fn check_fault(
    rt: &impl Abort,
    alloc: Global,
    before: &[u8],
    after: &[u8],
    error: PyxError,
) -> Result<(), Fail> {
    let stream = [before, after].concat(alloc)?;
    check_cuttings(rt, alloc, &stream, before.len(), Err(error), &SHORT)
}

#[test]
fn faults(rt: HostRuntime) -> Result<(), Fail> {
    for (before, after, line, fault) in FAULTS {
        check_fault(&rt, rt.alloc(), before, after, PyxError { line, fault })?;
    }
    Ok(())
}

// The bytes of a stream at a limit.
fn bytes_of(alloc: Global, long: Long) -> Result<Vec<u8>, NoMemory> {
    let (prefix, unit, count, end, closed, _) = long;
    let mut bytes = Vec::from_slice(alloc, prefix)?;
    push_times(&mut bytes, unit, count)?;
    bytes.extend_from_slice(end)?;
    push_times(&mut bytes, b")a\n", closed)?;
    Ok(bytes)
}

fn push_times(bytes: &mut Vec<u8>, unit: &[u8], count: usize) -> Result<(), NoMemory> {
    for _ in 0..count {
        bytes.extend_from_slice(unit)?;
    }
    Ok(())
}

// The stream is read up to the limit, cut in each of these ways.
fn check_read(
    rt: &impl Abort,
    alloc: Global,
    long: Long,
    cuttings: &[Cutting],
) -> Result<(), Fail> {
    let (prefix, unit, count, end, closed, _) = long;
    let read = end.strip_prefix(b"\r").unwrap_or(end);
    let stream = bytes_of(alloc, long)?;
    let text = bytes_of(alloc, (prefix, unit, count, read, closed, None))?;
    check_cuttings(rt, alloc, &stream, stream.len(), Ok(&text), cuttings)
}

// The number of the byte that tells the fault: the last before the end lines.
fn last_shown(alloc: Global, long: Long) -> Result<usize, NoMemory> {
    let (prefix, unit, count, end, _, _) = long;
    let shown = bytes_of(alloc, (prefix, unit, count, end, 0, None))?;
    Ok(shown.len().saturating_sub(1))
}

// The stream is read up to the limit, and refused past it, cut in each of these ways.
fn check_long(
    rt: &impl Abort,
    alloc: Global,
    long: Long,
    cuttings: &[Cutting],
) -> Result<(), Fail> {
    let Some((line, fault)) = long.5 else {
        return check_read(rt, alloc, long, cuttings);
    };
    let stream = bytes_of(alloc, long)?;
    let told = last_shown(alloc, long)?;
    let want = Err(PyxError { line, fault });
    check_cuttings(rt, alloc, &stream, told, want, cuttings)
}

#[test]
fn too_long_line(rt: HostRuntime) -> Result<(), Fail> {
    check_long(&rt, rt.alloc(), LINES[1], &LONG)
}

#[test]
fn deep(rt: HostRuntime) -> Result<(), Fail> {
    for stream in DEEP {
        check_long(&rt, rt.alloc(), stream, &SHORT)?;
    }
    Ok(())
}

#[test]
fn too_many_nodes(rt: HostRuntime) -> Result<(), Fail> {
    check_long(&rt, rt.alloc(), MANY[1], &LONG_AND_SLOW)
}
