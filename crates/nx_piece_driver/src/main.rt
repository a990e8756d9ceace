//! A program that reads the record of its standard input again and again, to be timed. Its first word says how often;
//! with `view` behind it the nodes are seen in the record, and else they are decoded. It says how much the record holds.
#![tactic(auto, using(nx_piece::proofs::Laws::are_short, nx_piece::proofs::Laws::little_weight))]

use nx_piece::{Stored, StoredView, decode, view, weight};
use nx_tree::NoMemory;
use std::alloc::Global;
use std::io::Read;
use std::{env, io};

fn main(rt: HostRuntime) -> io::Result<()> {
    let alloc = rt.alloc();
    let mut rounds: u32 = 1;
    let mut views = false;
    if let Ok(mut words) = env::args(&rt) {
        let _ = words.next();
        if let Some(word) = words.next() {
            rounds = word.as_str().parse::<u32>().unwrap_or(1);
        }
        if let Some(word) = words.next() {
            views = word.as_str() == "view";
        }
    }
    let mut bytes = Vec::new(alloc);
    rt.stdin().read_to_end(&mut bytes)?;
    let mut slots: u64 = 0;
    for _ in 0..rounds {
        let own = if views {
            weigh_view(alloc, bytes.as_slice())
        } else {
            weigh_decoded(alloc, bytes.as_slice())
        };
        slots = slots.wrapping_add(u64::from(own.map_err(|_| io::ErrorKind::OutOfMemory)?));
    }
    println!(rt; "{rounds} times, {slots} slots")?;
    Ok(())
}

// What the nodes of the record weigh, or 0 where it holds no piece.
fn weigh_decoded(alloc: Global, bytes: &[u8]) -> Result<u32, NoMemory> {
    let Some(stored) = decode(alloc, bytes)? else {
        return Ok(0);
    };
    Ok(match &stored {
        Stored::Inline(piece) => weight(&piece.body),
        Stored::Chained { body, .. } => weight(body),
    })
}

fn weigh_view(alloc: Global, bytes: &[u8]) -> Result<u32, NoMemory> {
    let Some(stored) = view(alloc, bytes)? else {
        return Ok(0);
    };
    Ok(match &stored {
        StoredView::Inline(piece) => piece.body.weight(),
        StoredView::Chained { body, .. } => body.weight(),
    })
}
