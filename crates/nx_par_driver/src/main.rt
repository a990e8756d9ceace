//! A program that bounds the nodes of a document again and again, to be timed. The document is that of its
//! standard input; its words say K, how many workers there are, and how often it is bounded.
#![tactic(auto)]

mod bounding;

use bounding::{bounded, read};
use std::io::Read;
use std::{env, io};

fn main(rt: HostRuntime) -> io::Result<()> {
    let alloc = rt.alloc();
    let (mut k, mut workers, mut rounds): (u32, u32, u32) = (64, 1, 1);
    if let Ok(mut words) = env::args(&rt) {
        let _ = words.next();
        if let Some(word) = words.next() {
            k = word.as_str().parse::<u32>().unwrap_or(k);
        }
        if let Some(word) = words.next() {
            workers = word.as_str().parse::<u32>().unwrap_or(workers);
        }
        if let Some(word) = words.next() {
            rounds = word.as_str().parse::<u32>().unwrap_or(rounds);
        }
    }
    let mut text = Vec::new(alloc);
    rt.stdin().read_to_end(&mut text)?;
    let Ok(tree) = read(alloc, text.as_slice()) else {
        return Err(io::ErrorKind::InvalidData.into());
    };
    let Ok(sum) = bounded(&rt, alloc, &tree, k.clamp(1, 256), workers, rounds) else {
        return Err(io::ErrorKind::OutOfMemory.into());
    };
    println!(rt; "{rounds} times, {sum} in all")?;
    Ok(())
}
