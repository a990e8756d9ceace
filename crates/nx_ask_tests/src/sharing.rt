// Many questions, shared out among some workers.
use crate::stores::{answers, store_of, take};
use nx_ask::Snapshot;
use nx_par::{Gate, NoGate};
use std::alloc::{AllocError, Global};
use std::process::Abort;
use std::sync::atomic::{AtomicU64, Ordering};
use std::test::Fail;
use std::thread::Threads;

// A gate that counts its calls and adds up the questions' numbers.
#[derive(Drop)]
struct Counting {
    begun: AtomicU64,
    begun_numbers: AtomicU64,
    ended: AtomicU64,
    ended_numbers: AtomicU64,
}

impl Gate for Counting {
    fn before(&self, question: u32) {
        let _ = self.begun.fetch_add(1, Ordering::SeqCst);
        let _ = self
            .begun_numbers
            .fetch_add(u64::from(question), Ordering::SeqCst);
    }

    fn after(&self, question: u32) {
        let _ = self.ended.fetch_add(1, Ordering::SeqCst);
        let _ = self
            .ended_numbers
            .fetch_add(u64::from(question), Ordering::SeqCst);
    }
}

// So many questions for the elements of a document with ten of them, which are `a` to `j`.
fn questions(alloc: Global, count: usize) -> Result<Vec<u8>, AllocError> {
    let mut text = Vec::new(alloc);
    for place in 0..count {
        text.extend_from_slice(b"get t /0/")?;
        text.push(b'0' + (place % 10) as u8)?;
        text.push(b'\n')?;
    }
    Ok(text)
}

fn replies(alloc: Global, count: usize) -> Result<Vec<u8>, AllocError> {
    let mut text = Vec::new(alloc);
    for place in 0..count {
        text.extend_from_slice(b"node 0 (")?;
        text.push(b'a' + (place % 10) as u8)?;
        text.push(b'\n')?;
    }
    Ok(text)
}

fn snapshot<R: Threads + Sync>(rt: &R, alloc: Global) -> Result<Snapshot, Fail> {
    let script =
        b"load t\n(r\n(a\n)a\n(b\n)b\n(c\n)c\n(d\n)d\n(e\n)e\n(f\n)f\n(g\n)g\n(h\n)h\n(i\n)i\n(j\n)j\n)r\n.\n";
    let mut host = store_of(rt, alloc, script)?;
    Ok(take(alloc, &mut host)?)
}

// These workers answer so many questions in their order, and tell the gate of each of them once.
fn told<R: Threads + Abort + Sync>(
    rt: &R,
    alloc: Global,
    snapshot: &Snapshot,
    count: usize,
    workers: u32,
) -> Result<(), Fail> {
    let gate = Counting {
        begun: AtomicU64::new(0),
        begun_numbers: AtomicU64::new(0),
        ended: AtomicU64::new(0),
        ended_numbers: AtomicU64::new(0),
    };
    let text = questions(alloc, count)?;
    let found = answers(rt, alloc, snapshot, text.as_slice(), workers, &gate)?;
    let expected = replies(alloc, count)?;
    assert!(rt;
        found.as_slice() == expected.as_slice(),
        "{count} questions, {workers} workers"
    );
    let all = count as u64;
    let sum = all.wrapping_mul(all.wrapping_sub(1)) / 2;
    assert_eq!(rt; gate.begun.load(Ordering::SeqCst), all);
    assert_eq!(rt; gate.begun_numbers.load(Ordering::SeqCst), sum);
    assert_eq!(rt; gate.ended.load(Ordering::SeqCst), all);
    assert_eq!(rt; gate.ended_numbers.load(Ordering::SeqCst), sum);
    Ok(())
}

#[test]
fn every_number_of_workers(rt: HostRuntime) -> Result<(), Fail> {
    let snapshot = snapshot(&rt, rt.alloc())?;
    for workers in 1u32..65 {
        told(&rt, rt.alloc(), &snapshot, 100, workers)?;
    }
    Ok(())
}

#[test]
fn few_questions(rt: HostRuntime) -> Result<(), Fail> {
    let snapshot = snapshot(&rt, rt.alloc())?;
    for count in 1usize..10 {
        for workers in [1u32, 2, 3, 5, 8, 64, 4_294_967_295] {
            told(&rt, rt.alloc(), &snapshot, count, workers)?;
        }
    }
    Ok(())
}

// The same snapshot again and again.
#[test]
fn many_questions(rt: HostRuntime) -> Result<(), Fail> {
    let snapshot = snapshot(&rt, rt.alloc())?;
    for workers in [1u32, 4] {
        told(&rt, rt.alloc(), &snapshot, 5_000, workers)?;
        let found = answers(&rt, rt.alloc(), &snapshot, b"names\n", workers, &NoGate)?;
        assert_eq!(rt; found.as_slice(), b"doc t 12\n.\n".as_slice());
    }
    Ok(())
}
