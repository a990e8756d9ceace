// Texts of plans, and plans that are certified or refused.
ghost use Rattle.nx_tree.specs.Document.{IsDocument};

use nx_bounds::{BoundsError, certified, read_plan, write_plan};
use nx_document_tests::read;
use nx_parts::{PartsError, Plan};
use nx_tree::{Bytes, Tree};
use nx_weights::Weights;
use std::alloc::Global;
use std::process::Abort;
use std::test::Fail;

// A text that is no plan, and its first bad line.
const BAD: [(&[u8], u64); 38] = [
    (b"\n", 1),
    (b"\r\n", 1),
    (b" ", 1),
    (b"root", 1),
    (b"root ", 1),
    (b"root 01\n", 1),
    (b"root +1\n", 1),
    (b"root -1\n", 1),
    (b"root 1 \n", 1),
    (b" root 1\n", 1),
    (b"root  1\n", 1),
    (b"root 1 1\n", 1),
    (b"root 4294967296\n", 1),
    (b"root 18446744073709551617\n", 1),
    (b"root 1\r\r\n", 1),
    (b"Root 1\n", 1),
    (b"roots 1\n", 1),
    (b"run / 0 0\n", 1),
    (b"run / 0 0 1 1\n", 1),
    (b"run  / 0 0 1\n", 1),
    (b"run /0/ 0 0 1\n", 1),
    (b"run 0 0 0 1\n", 1),
    (b"run /00 0 0 1\n", 1),
    (b"run /4294967296 0 0 1\n", 1),
    (b"run / 0 00 1\n", 1),
    (b"run\t/ 0 0 1\n", 1),
    (b"bound 1 0 0 0\n", 1),
    (b"bound 0 0 0\n", 1),
    (b"bound 0 0 0 0 0\n", 1),
    (b"bound 00 0 0 0\n", 1),
    (b"root 1\n\nroot 1\n", 2),
    (b"root 1\nroot 1 \nroot\n", 2),
    (b"bound 0 1 2 3\nroot 1\n", 2),
    (b"bound 0 1 2 3\nrun / 0 0 1\n", 2),
    (b"root 1\nbound 0 1 2 3\nbound 0 1 2 3", 3),
    (b"root 1\nbound 0 1 2 3\nbound 2 1 2 3", 3),
    (b"root 1\r\nbound 0 1 2 3\r\nbound 1 1 2 3\nx", 4),
    (b"root 1\nbound 0 1 2 3\nbound 1 1 2 3\n\n", 4),
];

// A text of a plan, and the text that is written for it.
const GOOD: [(&[u8], &[u8]); 6] = [
    (b"", b""),
    (b"root 0", b"root 0\n"),
    (
        b"run /0/4294967295 0 4294967295 4294967295\r\nroot 10\r\n",
        b"run /0/4294967295 0 4294967295 4294967295\nroot 10\n",
    ),
    (
        b"root 1\nroot 1\nrun / 7 3 2\n",
        b"root 1\nroot 1\nrun / 7 3 2\n",
    ),
    (
        b"bound 0 1 2 3\nbound 1 4294967295 0 10",
        b"bound 0 1 2 3\nbound 1 4294967295 0 10\n",
    ),
    (
        b"root 5\nrun / 0 1 6\nbound 0 2 5 5\r\nbound 1 1 3 3\nbound 2 1 3 3\r",
        b"root 5\nrun / 0 1 6\nbound 0 2 5 5\nbound 1 1 3 3\nbound 2 1 3 3\n",
    ),
];

// Why a text is no plan; `None` where it is one.
fn refusal(alloc: Global, text: &[u8]) -> Option<BoundsError> {
    read_plan(alloc, text).err()
}

#[test]
fn bad_lines(rt: HostRuntime) {
    for (text, line) in BAD {
        let want = BoundsError::BadPlanLine { line };
        assert_eq!(rt; refusal(rt.alloc(), text), Some(want));
    }
}

fn rewritten(alloc: Global, text: &[u8]) -> Result<Bytes, BoundsError> {
    let plan = read_plan(alloc, text)?;
    Ok(write_plan(alloc, &plan)?)
}

#[test]
fn plans(rt: HostRuntime) -> Result<(), Fail> {
    for (text, expected) in GOOD {
        assert_eq!(rt; rewritten(rt.alloc(), text)?.as_slice(), expected);
    }
    Ok(())
}

const SOUND: &[u8] = b"root 3\nbound 0 1 3 1\nbound 1 1 2 2\n";

// A plan with weights to take in place of those that it says, and the verdict on it.
const WEIGHED: [(Option<&[u64]>, Result<(), BoundsError>); 4] = [
    (None, Ok(())),
    (Some(&[3, 9]), Ok(())),
    (
        Some(&[]),
        Err(BoundsError::WrongWeight {
            index: 0,
            claimed: 0,
            found: 3,
        }),
    ),
    (
        Some(&[2, 3]),
        Err(BoundsError::WrongWeight {
            index: 0,
            claimed: 2,
            found: 3,
        }),
    ),
];

const HEAVY: PartsError = PartsError::Heavy {
    index: 0,
    weight: 3,
};

// A greatest weight of a part, a plan, and what refuses it.
const REFUSED: [(u32, &[u8], BoundsError); 4] = [
    (2, SOUND, BoundsError::Parts(HEAVY)),
    (
        3,
        b"bound 0 1 3 1\nbound 1 1 2 2\n",
        BoundsError::Parts(PartsError::NoRoot),
    ),
    (
        3,
        b"root 3\nbound 0 1 3 1\n",
        BoundsError::Length {
            bounds: 1,
            nodes: 2,
        },
    ),
    (
        3,
        b"root 1\nrun / 0 0 2\nbound 0 1 3 1\nbound 1 1 2 2\n",
        BoundsError::Count {
            intervals: 2,
            bound: 1,
        },
    ),
];

fn claimed(alloc: Global, text: &[u8], weights: Option<&[u64]>) -> Result<Plan, BoundsError> {
    let mut plan = read_plan(alloc, text)?;
    if let Some(weights) = weights {
        plan.weights = Weights::from_slice(alloc, weights)?;
    }
    Ok(plan)
}

// What the certificate says of a short plan.
fn certify(
    rt: &impl Abort,
    alloc: Global,
    tree: &Tree,
    k: u32,
    plan: &Plan,
) -> Result<(), BoundsError>
    requires { IsDocument tree.now }
{
    assert!(rt; 0 < k && k < 4);
    assert!(rt; plan.parts.len() < 4 && plan.weights.len() < 4 && plan.bounds.len() < 4);
    certified(alloc, tree, k, plan)
}

// The verdict on a plan of the document of one element, which weighs 2 slots below the root's one.
fn verdict(
    rt: &impl Abort,
    alloc: Global,
    k: u32,
    text: &[u8],
    weights: Option<&[u64]>,
) -> Result<Result<(), BoundsError>, Fail> {
    let tree = read(alloc, b"(e\n)e\n")?;
    let plan = claimed(alloc, text, weights)?;
    Ok(certify(rt, alloc, &tree, k, &plan))
}

#[test]
fn verdicts_on_weights(rt: HostRuntime) -> Result<(), Fail> {
    for (weights, want) in WEIGHED {
        let found = verdict(&rt, rt.alloc(), 3, SOUND, weights)?;
        assert_eq!(rt; found, want);
    }
    Ok(())
}

#[test]
fn verdicts(rt: HostRuntime) -> Result<(), Fail> {
    for (k, text, refusal) in REFUSED {
        let found = verdict(&rt, rt.alloc(), k, text, None)?;
        assert_eq!(rt; found, Err(refusal));
    }
    Ok(())
}
