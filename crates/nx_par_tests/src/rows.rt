// The bounds of small documents.
use crate::bounding::{both_bounded, bounded, read};
use nx_par::NoGate;
use nx_parts::Bound;
use std::test::Fail;

// An element over an attribute and a text.
const FIRST: &[u8] = b"(a\nAx 1\n-hi\n)a\n";

// Its bounds at 6 slots.
const FIRST_BOUNDS: [Bound; 4] = [
    Bound {
        least: 2,
        lean: 1,
        nearly: 1,
    },
    Bound {
        least: 1,
        lean: 6,
        nearly: 2,
    },
    Bound {
        least: 1,
        lean: 2,
        nearly: 2,
    },
    Bound {
        least: 1,
        lean: 2,
        nearly: 2,
    },
];

// An element named by 40 letters over an empty element, an element over a text of 9 bytes, and an empty element.
const SECOND: &[u8] =
    b"(rrrrrrrrrrrrrrrrrrrrrrrrrrrrrrrrrrrrrrrr\n(x\n)x\n(y\n-123456789\n)y\n(z\n)z\n)rrrrrrrrrrrrrrrrrrrrrrrrrrrrrrrrrrrrrrrr\n";

// Its bounds at 6 slots.
const SECOND_BOUNDS: [Bound; 6] = [
    Bound {
        least: 4,
        lean: 1,
        nearly: 1,
    },
    Bound {
        least: 3,
        lean: 6,
        nearly: 6,
    },
    Bound {
        least: 1,
        lean: 2,
        nearly: 2,
    },
    Bound {
        least: 1,
        lean: 5,
        nearly: 2,
    },
    Bound {
        least: 1,
        lean: 3,
        nearly: 3,
    },
    Bound {
        least: 1,
        lean: 2,
        nearly: 2,
    },
];

#[test]
fn one_document_by_any_number_of_workers(rt: HostRuntime) -> Result<(), Fail> {
    let alloc = rt.alloc();
    let tree = read(alloc, SECOND)?;
    for workers in [1u32, 2, 4, 64] {
        match bounded(&rt, alloc, &tree, 6, workers.max(1), &NoGate)? {
            None => assert!(rt; false, "too heavy"),
            Some(found) => {
                assert_eq!(rt;
                    found.as_slice(),
                    SECOND_BOUNDS.as_slice(),
                    "{workers} workers"
                );
            }
        }
    }
    Ok(())
}

#[test]
fn one_list_for_each_document(rt: HostRuntime) -> Result<(), Fail> {
    let alloc = rt.alloc();
    for workers in [1u32, 2, 4, 64] {
        let (first, second) = (read(alloc, FIRST)?, read(alloc, SECOND)?);
        match both_bounded(&rt, alloc, first, second, 6, workers.max(1))? {
            None => assert!(rt; false, "too heavy"),
            Some(lists) => {
                let lists = lists.as_slice();
                assert!(rt; lists.len() == 2);
                assert_eq!(rt; lists[0].as_slice(), FIRST_BOUNDS.as_slice());
                assert_eq!(rt; lists[1].as_slice(), SECOND_BOUNDS.as_slice());
            }
        }
    }
    Ok(())
}
