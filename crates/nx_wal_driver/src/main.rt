//! A program that drives the log of `nx_wal` over real files, to be killed, timed and traced.
#![tactic(auto)]

mod commands;
mod driving;
mod faults;
mod giving;
mod stamps;

ghost use Rattle.std.specs.Prelude.{◌≡◌, drop, map, string_bytes, IfErr, IfOk};
ghost use Rattle.std.specs.Option.{option_copied};
ghost use Rattle.std.specs.Process.{exit_status};
ghost use Rattle.std.specs.Vec.Iter.{into_iter_items};
ghost use Rattle.nx_wal_driver.specs.Command.{HasAllowedPages};
ghost use Rattle.nx_wal_driver.specs.Fault.{HasCause};
ghost use Rattle.nx_wal_driver.specs.Exit.{fault_exit_number, fault_error_line};
ghost use Rattle.nx_wal_driver.specs.declared.faults.Fault.TheVariants.{Memory};

use commands::{Command, command_of};
use driving::{create, dump, fill, open};
use faults::Fault;
use nx_files::{FileHost, Streams};
use nx_host::{Disk, Host};
use nx_lists::List;
use std::alloc::Global;
use std::env;
use std::env::{Args, Env};
use std::fs::{File, Files};
use std::io::{Read, Write};
use std::process::ExitCode;

fn main(rt: HostRuntime) -> ExitCode {
    end(&rt, carry_out(&rt, rt.stdin(), rt.stdout()).err())
}

// Carries out the command of the process's words.
fn carry_out<P, R, W>(process: &P, reader: R, writer: W) -> Result<(), Fault>
where
    P: Env + AllocGlobal + Files<File = File>,
    R: Read + Drop,
    W: Write + Drop,
{
    let alloc = process.alloc();
    let words = words(alloc, env::args(process).map_err(|_| Fault::Usage)?)?;
    let Some((store, rest)) = words.as_slice().split_first() else {
        return Err(Fault::Usage);
    };
    let Some(command) = command_of(rest) else {
        return Err(Fault::Usage);
    };
    let mut host = FileHost::new(
        alloc,
        process,
        store.as_str(),
        reader,
        writer,
        Streams::NO_FILES,
    )?;
    run(alloc, &mut host, command)
}

// The words behind the program's own name.
fn words(alloc: Global, mut arguments: Args) -> Result<List<String>, Fault>
    ensures given { IfOk result (λ words. map string_bytes words ≡ map string_bytes (drop 1 (into_iter_items arguments))) }
    ensures fault { IfErr result (λ fault. fault ≡ Memory) }
{
    let mut words = List::new(alloc);
    let _ = arguments.next();
    while let Some(argument) = arguments.next() {
        words.push(String::from_str(alloc, argument.as_str())?)?;
    }
    Ok(words)
}

fn run<H: Host>(alloc: Global, host: &mut H, command: Command) -> Result<(), Fault>
    requires { HasAllowedPages command }
    ensures cause { IfErr result (λ fault. HasCause ⟦<H as Disk>⟧ fault host.old host.new) }
{
    match command {
        Command::Create(creation) => create(alloc, host, creation),
        Command::Fill(filling) => fill(alloc, host, filling),
        Command::Dump => dump(alloc, host),
        Command::Open => open(alloc, host),
    }
}

// Says on standard error what went wrong, and gives the code to exit with.
fn end<P: Eprint>(process: &P, fault: Option<Fault>) -> ExitCode
    ensures { exit_status result ≡ fault_exit_number fault }
{
    if let Some(line) = message(fault) {
        // With standard error gone there is nowhere left to say so.
        let _ = process.eprintln(line);
    }
    exit_code(fault)
}

fn message(fault: Option<Fault>) -> Option<&'static str>
    ensures { option_copied result ≡ fault_error_line fault }
{
    match fault? {
        Fault::Usage => Some(
            "usage: nx_wal_driver STORE create PAGES [SEED] | fill GROUPS PAGES [EVERY [SEED]] | dump | open",
        ),
        Fault::TooFewPages => Some("too few pages"),
        Fault::Exists => Some("there are pages already"),
        Fault::Disk => Some("disk fault"),
        Fault::Write => Some("write fault"),
        Fault::Memory => Some("out of memory"),
        Fault::NotAStore => Some("not a store"),
    }
}

fn exit_code(fault: Option<Fault>) -> ExitCode
    ensures { exit_status result ≡ fault_exit_number fault }
{
    ExitCode::from(match fault {
        None => 0,
        Some(Fault::Usage) => 1,
        Some(Fault::Exists | Fault::TooFewPages) => 2,
        Some(Fault::Disk) => 3,
        Some(Fault::Write) => 5,
        Some(Fault::Memory) => 6,
        Some(Fault::NotAStore) => 7,
    })
}
