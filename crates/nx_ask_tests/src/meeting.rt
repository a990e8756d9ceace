// Two questions that are answered at once.
use crate::stores::{answers, store_of, take};
use nx_par::Gate;
use std::alloc::Global;
use std::sync::atomic::{AtomicBool, Ordering};
use std::test::Fail;
use std::thread::{Threads, yield_now};

// A gate that holds each of two questions until the other one has begun, for a number of turns.
#[derive(Drop)]
struct Meeting {
    turns: u32,
    first: AtomicBool,
    second: AtomicBool,
    missed: AtomicBool,
    // A question ended that hadn't begun, or there was a third one.
    astray: AtomicBool,
}

impl Meeting {
    fn new(turns: u32) -> Meeting {
        Meeting {
            turns,
            first: AtomicBool::new(false),
            second: AtomicBool::new(false),
            missed: AtomicBool::new(false),
            astray: AtomicBool::new(false),
        }
    }

    fn own(&self, question: u32) -> &AtomicBool {
        if question == 0 {
            &self.first
        } else {
            &self.second
        }
    }

    fn other(&self, question: u32) -> &AtomicBool {
        if question == 0 {
            &self.second
        } else {
            &self.first
        }
    }

    // Both questions began, and each saw that the other one had.
    fn met(&self) -> bool {
        self.first.load(Ordering::SeqCst)
            && self.second.load(Ordering::SeqCst)
            && !self.missed.load(Ordering::SeqCst)
            && !self.astray.load(Ordering::SeqCst)
    }
}

impl Gate for Meeting {
    fn before(&self, question: u32) {
        if question > 1 {
            self.astray.store(true, Ordering::SeqCst);
        }
        self.own(question).store(true, Ordering::SeqCst);
        for turn in 0..self.turns {
            if self.other(question).load(Ordering::SeqCst) {
                return;
            }
            if turn % 1024 == 1023 {
                yield_now();
            }
        }
        self.missed.store(true, Ordering::SeqCst);
    }

    fn after(&self, question: u32) {
        if !self.own(question).load(Ordering::SeqCst) {
            self.astray.store(true, Ordering::SeqCst);
        }
    }
}

// Whether two workers, or one, met at the gate.
fn meets<R: Threads + Sync>(rt: &R, alloc: Global, workers: u32, turns: u32) -> Result<bool, Fail> {
    let mut host = store_of(rt, alloc, b"load e\n(a\n-hi\n)a\n.\n")?;
    let snapshot = take(alloc, &mut host)?;
    let gate = Meeting::new(turns);
    let found = answers(rt, alloc, &snapshot, b"get e /0/0\nnames\n", workers, &gate)?;
    Ok(found.as_slice() == b"node 0 -hi\ndoc e 3\n.\n".as_slice() && gate.met())
}

#[test]
fn two_questions_meet(rt: HostRuntime) -> Result<(), Fail> {
    assert!(rt; meets(&rt, rt.alloc(), 2, 200_000_000)?);
    Ok(())
}

// One worker can't pass the gate, so that the test above needs two.
#[test]
fn one_worker_does_not_meet(rt: HostRuntime) -> Result<(), Fail> {
    assert!(rt; !meets(&rt, rt.alloc(), 1, 10_000)?);
    Ok(())
}
