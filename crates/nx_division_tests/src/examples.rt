// Parts whose division is known.
use crate::nodes::nodes;
use crate::plain::{
    are_light, are_ordered, is_feasible_plan, is_split, part_weight, point, separator_plan,
};
use crate::sketches::{is_splittable, read, sketch};
use nx_division::split;
use nx_lists::NoMemory;
use nx_parts::{Interval, Partitioning};
use nx_sketch::separator;
use std::alloc::Global;
use std::process::Abort;
use std::test::Fail;

// Which plan a split is.
#[derive(Clone, Copy, Debug, PartialEq, Eq)]
enum Case {
    // The separator's.
    Separator,
    // One that cuts no cluster edge.
    Kept,
    // Any.
    Cut,
}

// A part, how it is divided, and into what.
#[derive(Clone, Copy)]
struct Example {
    sketch: &'static str,
    k: u32,
    target: u32,
    tolerance: u32,
    case: Case,
    // Where only one division is right.
    intervals: Option<&'static str>,
    count: usize,
}

const fn make_example(
    sketch: &'static str,
    limits: (u32, u32, u32),
    case: Case,
    count: usize,
    intervals: Option<&'static str>,
) -> Example {
    let (k, target, tolerance) = limits;
    Example {
        sketch,
        k,
        target,
        tolerance,
        case,
        intervals,
        count,
    }
}

fn examples() -> [Example; 8] {
    [
        make_example(
            "1[2[2 2 2 2 2 2 2]]",
            (16, 50, 4),
            Case::Separator,
            3,
            Some("/ 0 0: 3, /0/0 0 1: 4, /0/0 2 6: 10, "),
        ),
        make_example("1[2[2 2 2 2 2 2 2]]", (16, 100, 4), Case::Kept, 2, None),
        make_example(
            "1[2[2c 2c 2c 2c 2c 2c 3c]]",
            (16, 50, 4),
            Case::Cut,
            2,
            None,
        ),
        make_example(
            "1[2[2c 2c 2c 2c 2c 2c 2c]]",
            (16, 50, 4),
            Case::Kept,
            2,
            Some("/ 0 0: 1, /0 0 0: 16, "),
        ),
        make_example(
            "3 3 4[2 2] 3 3",
            (16, 50, 4),
            Case::Separator,
            4,
            Some("/ 0 1: 6, / 2 2: 4, /2 0 1: 4, / 3 4: 6, "),
        ),
        make_example(
            "2[3 ~2 2 2s[1] 3[3 3] 4]",
            (16, 50, 3),
            Case::Separator,
            6,
            Some("/ 0 0: 5, /0 0 0: 3, /0 3 3: 2, /0 4 4: 3, /0/5 0 1: 6, /0 6 6: 4, "),
        ),
        make_example("1[3c[4 4 1c] 5 2 ~ 2]", (12, 100, 3), Case::Kept, 3, None),
        make_example("2[4c 4c 4c 2 2s 1c]", (12, 50, 3), Case::Cut, 3, None),
    ]
}

// The intervals, each with what its part weighs.
fn written(alloc: Global, parts: &[Interval], weights: &[u64]) -> Result<String, NoMemory> {
    let mut text = String::new(alloc);
    for (interval, weight) in parts.iter().zip(weights) {
        match interval {
            Interval::Root => text.push_str("root")?,
            Interval::Run {
                parent,
                first,
                last,
            } => {
                if parent.is_empty() {
                    text.push_str("/")?;
                }
                for step in parent.as_slice() {
                    text.push_str(format!(in alloc; "/{step}")?.as_str())?;
                }
                text.push_str(format!(in alloc; " {first} {last}: {weight}, ")?.as_str())?;
            }
        }
    }
    Ok(text)
}

// The division of the part, which has been seen to be a split, and which plan it is.
fn divide(
    rt: &impl Abort,
    alloc: Global,
    example: &Example,
) -> Result<(Partitioning, Case, String), Fail> {
    let (k, target, tolerance) = (example.k, example.target, example.tolerance);
    let spots = sketch(alloc, read(alloc, example.sketch.as_bytes())?.as_slice())?;
    assert!(rt; k < 1 << 24 && target <= 100);
    assert!(rt; is_splittable(k, spots.as_slice()));
    let parts = split(alloc, spots.as_slice(), 0, k, target, tolerance)?.parts;
    let nodes = nodes(alloc, spots.as_slice())?;
    assert!(rt; nodes.len() < 1 << 20);
    assert!(rt; are_ordered(nodes.as_slice()));
    assert!(rt;
        is_split(
            alloc,
            nodes.as_slice(),
            k,
            target,
            tolerance,
            parts.as_slice()
        )?
    );
    let t = point(nodes.as_slice(), target);
    let plan = separator_plan(alloc, nodes.as_slice(), t, tolerance)?;
    let case = if is_feasible_plan(k, nodes.as_slice(), plan.as_slice()) {
        Case::Separator
    } else if are_light(k, nodes.as_slice()) {
        Case::Kept
    } else {
        Case::Cut
    };
    let mut weights = Vec::new(alloc);
    for index in 0..parts.len() {
        weights.push(part_weight(nodes.as_slice(), parts.as_slice(), index))?;
    }
    let text = written(alloc, parts.as_slice(), weights.as_slice())?;
    Ok((parts, case, text))
}

// Whether it is the text that is wanted, if one is.
fn is_wanted(want: Option<&str>, text: &str) -> bool {
    match want {
        Some(want) => want == text,
        None => true,
    }
}

fn check(rt: &impl Abort, alloc: Global, example: &Example) -> Result<(), Fail> {
    let (parts, case, text) = divide(rt, alloc, example)?;
    assert_eq!(rt; case, example.case, "{text}");
    assert_eq!(rt; parts.len(), example.count, "{text}");
    assert!(rt; is_wanted(example.intervals, text.as_str()), "{text}");
    Ok(())
}

#[test]
fn known_divisions(rt: HostRuntime) -> Result<(), Fail> {
    let alloc = rt.alloc();
    for example in examples() {
        check(&rt, alloc, &example)?;
    }
    Ok(())
}

// A row of as many roots as a heavy part may have.
#[test]
fn many_roots(rt: HostRuntime) -> Result<(), Fail> {
    let alloc = rt.alloc();
    let mut text = String::new(alloc);
    for _ in 0..257 {
        text.push_str("1 ")?;
    }
    let spots = sketch(alloc, read(alloc, text.as_str().as_bytes())?.as_slice())?;
    assert!(rt; is_splittable(256, spots.as_slice()));
    let parts = split(alloc, spots.as_slice(), 0, 256, 50, 64)?.parts;
    let text = written(alloc, parts.as_slice(), &[0, 0])?;
    assert_eq!(rt; text.as_str(), "/ 0 127: 0, / 128 256: 0, ");
    assert_eq!(rt; parts.len(), 2);
    Ok(())
}

// The separator of a text's parent, and no separator where a part is divided at its end.
#[test]
fn known_separators(rt: HostRuntime) -> Result<(), Fail> {
    let alloc = rt.alloc();
    let spots = sketch(alloc, read(alloc, b"1[2[2 2 2 2 2 2 2]]")?.as_slice())?;
    assert!(rt; is_splittable(16, spots.as_slice()));
    let marks = separator(alloc, spots.as_slice(), 50, 4)?;
    let want = [true, true, false, false, false, false, false, false, false];
    assert_eq!(rt; marks.as_slice(), want.as_slice());
    let marks = separator(alloc, spots.as_slice(), 100, 4)?;
    assert_eq!(rt; marks.as_slice(), [false; 9].as_slice());
    Ok(())
}
