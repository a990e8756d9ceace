//! The program: it runs one command of a store over standard input and output.
#![tactic(auto)]

use nx_files::Streams;
use nx_program::{may_hear, run_process};
use std::env;
use std::io::{Stdin, Stdout};
use std::process::ExitCode;

fn main(rt: HostRuntime) -> ExitCode {
    let look = |reader: &Stdin, writer: &Stdout| Streams::of(rt.alloc(), &rt, reader, writer);
    // Before the run, in which a file that is opened might take the place of a standard error that is closed.
    let heard = may_hear(&rt, &rt.stderr());
    let ending = run_process(&rt, env::args(&rt), rt.stdin(), rt.stdout(), look, heard);
    if let Some(line) = ending.line {
        // With standard error gone there is nowhere left to say it.
        let _ = rt.eprintln(line.as_str());
    }
    ending.code
}
