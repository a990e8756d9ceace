//! A program that splits a piece again and again, to be timed. The piece is the record of its standard input
//! beside itself; its words say how often, and how many rules the matrix has.
#![tactic(auto, using(nx_piece::proofs::Laws::are_short, nx_piece::proofs::Laws::little_weight))]

mod pieces;
mod rules;

use nx_split::split;
use pieces::{K, read_pair};
use rules::make_rules;
use std::io::Read;
use std::{env, io};

fn main(rt: HostRuntime) -> io::Result<()> {
    let alloc = rt.alloc();
    let (mut rounds, mut rules): (u32, u32) = (1, 0);
    if let Ok(mut words) = env::args(&rt) {
        let _ = words.next();
        if let Some(word) = words.next() {
            rounds = word.as_str().parse::<u32>().unwrap_or(1);
        }
        if let Some(word) = words.next() {
            rules = word.as_str().parse::<u32>().unwrap_or(0);
        }
    }
    let mut bytes = Vec::new(alloc);
    rt.stdin().read_to_end(&mut bytes)?;
    let matrix = make_rules(alloc, rules).map_err(|_| io::ErrorKind::OutOfMemory)?;
    let pair = read_pair(alloc, bytes.as_slice()).map_err(|_| io::ErrorKind::OutOfMemory)?;
    let mut intervals: u64 = 0;
    if let Some(piece) = &pair {
        for _ in 0..rounds {
            let division = split(alloc, piece, None, 0, &matrix, K, 50, 64).map_err(
                |_| io::ErrorKind::OutOfMemory,
            )?;
            intervals = intervals.wrapping_add(division.parts.len() as u64);
        }
    }
    println!(rt; "{rounds} times, {intervals} intervals")?;
    Ok(())
}
