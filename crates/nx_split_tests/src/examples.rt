// Pieces whose divisions are known.
use crate::made::Made::{Cluster, Free, Proxy, Standalone};
use crate::made::{Limits, Made, division_of, make_rules, marks_of, numbers};
use nx_matrix::{Entry, Matrix};
use nx_tree::{Bytes, Kind, Node};
use std::alloc::Global;
use std::process::Abort;
use std::test::Fail;

// The piece with so many roots is divided into just these intervals, and no root is raised.
fn check(
    rt: &impl Abort,
    alloc: Global,
    roots: u16,
    items: &[Made],
    above: Option<&Node>,
    limits: Limits,
    want: &[u32],
) -> Result<(), Fail> {
    check_raised(rt, alloc, roots, items, above, limits, None, want)
}

// ... or this one.
fn check_raised(
    rt: &impl Abort,
    alloc: Global,
    roots: u16,
    items: &[Made],
    above: Option<&Node>,
    limits: Limits,
    raised: Option<u32>,
    want: &[u32],
) -> Result<(), Fail> {
    let matrix = make_rules(alloc)?;
    let Some(division) = division_of(alloc, roots, items, above, &matrix, limits)? else {
        panic!(rt; "no piece was divided");
    };
    assert_eq!(rt; division.raised, raised);
    assert_eq!(rt; numbers(alloc, &division.parts)?.as_slice(), want);
    Ok(())
}

// Without room in the part above.
const fn limits(k: u32, target: u32, tolerance: u32) -> Limits {
    Limits {
        room: 0,
        k,
        target,
        tolerance,
    }
}

// With so much room there, parts of up to 16, divided in the middle.
const fn with_room(room: u32) -> Limits {
    Limits {
        room,
        k: 16,
        target: 50,
        tolerance: 4,
    }
}

// A node of which nothing is asked by itself.
fn upper(alloc: Global) -> Node {
    Node {
        kind: Kind::Attribute,
        name: Bytes::new(alloc),
        content: Bytes::new(alloc),
    }
}

// The point lies in the second child, which weighs too little.
#[test]
fn marks_in_document_order(rt: HostRuntime) -> Result<(), Fail> {
    let alloc = rt.alloc();
    let items = [Free(1, 1), Free(2, 3), Free(2, 0), Free(4, 0), Free(2, 0)];
    for (target, want) in [(50, true), (100, false), (4_294_967_295, false)] {
        let Some(marks) = marks_of(alloc, 1, &items, target, 4)? else {
            panic!(rt; "no piece was read");
        };
        let want = [want, want, false, false, false];
        assert_eq!(rt; marks.as_slice(), want.as_slice());
    }
    Ok(())
}

// Positions count a proxy as its roots, and no interval reaches across one.
#[test]
fn positions_of_proxies(rt: HostRuntime) -> Result<(), Fail> {
    let alloc = rt.alloc();
    let between = [Free(2, 3), Free(1, 0), Proxy(1), Free(1, 0)];
    let want = [0, 0, 0, 1, 0, 0, 0, 1, 0, 2, 2];
    check(&rt, alloc, 1, &between, None, limits(2, 50, 0), &want)?;
    let behind = [Free(1, 2), Proxy(256), Free(1, 0)];
    let want = [0, 0, 0, 1, 0, 256, 256];
    check(&rt, alloc, 1, &behind, None, limits(1, 50, 0), &want)?;
    let mixed = [
        Free(2, 6),
        Free(3, 0),
        Proxy(2),
        Free(2, 0),
        Standalone(2, 1),
        Free(1, 0),
        Free(3, 2),
        Free(3, 0),
        Free(3, 0),
        Free(4, 0),
    ];
    let want = [
        0, 0, 0, 1, 0, 0, 0, 1, 0, 3, 3, 1, 0, 4, 4, 2, 0, 5, 0, 1, 1, 0, 6, 6,
    ];
    check(&rt, alloc, 1, &mixed, None, limits(16, 50, 3), &want)
}

// A root that is asked to stay with the node above is free, and one that is asked to be alone is alone. Where
// there is no such node, nothing is asked.
#[test]
fn entries_of_roots(rt: HostRuntime) -> Result<(), Fail> {
    let alloc = rt.alloc();
    let above = upper(alloc);
    let roots = [Cluster(1, 0), Free(1, 0), Standalone(1, 0), Free(1, 0)];
    let wide = limits(3, 50, 4);
    let want = [0, 0, 1, 0, 2, 2, 0, 3, 3];
    check(&rt, alloc, 4, &roots, Some(&above), wide, &want)?;
    let want = [0, 0, 1, 0, 2, 3];
    check(&rt, alloc, 4, &roots, None, wide, &want)
}

// An entry is that of the parent's label and the child's, in this order.
#[test]
fn entries_by_labels(rt: HostRuntime) -> Result<(), Fail> {
    let alloc = rt.alloc();
    let mut matrix = Matrix::new(alloc);
    matrix.set(b"@", b"#text", Entry::Cluster)?;
    let items = [Free(1, 1), Cluster(1, 1), Free(1, 0)];
    let narrow = limits(2, 100, 0);
    let Some(division) = division_of(alloc, 1, &items, None, &matrix, narrow)? else {
        panic!(rt; "no piece was divided");
    };
    let want = [0, 0, 0, 2, 0, 0, 0, 0];
    assert_eq!(rt;
        numbers(alloc, &division.parts)?.as_slice(),
        want.as_slice()
    );
    Ok(())
}

// The separator is the first two nodes, which weigh 4 in one part: with so much room above they join the part there.
#[test]
fn separator_with_room_above(rt: HostRuntime) -> Result<(), Fail> {
    let alloc = rt.alloc();
    let above = upper(alloc);
    let text = Free(2, 0);
    let below = [text, text, text, text, text, text, text];
    let kept = [0, 0, 0, 2, 0, 0, 0, 1, 2, 0, 0, 2, 6];
    let raised = [2, 0, 0, 0, 1, 2, 0, 0, 2, 6];
    for root in [Free(2, 1), Cluster(2, 1)] {
        let mut items = Vec::from_array(alloc, [root, Free(2, 7)])?;
        items.extend_from_slice(&below)?;
        for room in [0, 3] {
            check_raised(
                &rt,
                alloc,
                1,
                items.as_slice(),
                Some(&above),
                with_room(room),
                None,
                &kept,
            )?;
        }
        for room in [4, 16] {
            check_raised(
                &rt,
                alloc,
                1,
                items.as_slice(),
                Some(&above),
                with_room(room),
                Some(0),
                &raised,
            )?;
        }
    }
    Ok(())
}

// A root that is asked to be alone isn't raised, and one with others before it is found by its position.
#[test]
fn roots_of_the_separator(rt: HostRuntime) -> Result<(), Fail> {
    let alloc = rt.alloc();
    let above = upper(alloc);
    let text = Free(2, 0);
    let below = [text, text, text, text, text, text, text];
    let mut alone = Vec::from_array(alloc, [Standalone(2, 1), Free(2, 7)])?;
    alone.extend_from_slice(&below)?;
    let want = [0, 0, 0, 2, 0, 0, 0, 1, 2, 0, 0, 2, 6];
    check_raised(
        &rt,
        alloc,
        1,
        alone.as_slice(),
        Some(&above),
        with_room(16),
        None,
        &want,
    )?;
    let mut second = Vec::from_array(alloc, [Free(1, 0), Free(2, 7)])?;
    second.extend_from_slice(&below)?;
    let want = [0, 0, 0, 1, 1, 0, 1, 1, 1, 2, 6];
    check_raised(
        &rt,
        alloc,
        2,
        second.as_slice(),
        Some(&above),
        with_room(2),
        Some(1),
        &want,
    )
}
