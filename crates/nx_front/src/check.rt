// A run that checks a store.
ghost use Rattle.std.specs.Prelude.{◌≡◌, ◌≤◌, length, IfOk, string_bytes};
ghost use Rattle.nx_front.specs.Checking.{rule_word, wrong_line, Checks};

use crate::Status;
use crate::init::say;
use nx_check::{CheckError, PageRule, Verdict};
use nx_host::{Disk, Host};
use nx_lists::NoMemory;
use std::alloc::Global;

// Says whether the store on the disk is sound, or which rule its pages break first. No input is taken, and nothing is written to
// the disk.
pub fn check<H: Host>(alloc: Global, host: &mut H) -> Status
    ensures { Checks ⟦<H as Disk>⟧ result host.old host.new }
{
    match nx_check::check(alloc, host) {
        Ok(Verdict::Sound) => say(host, b"sound\n", Status::Done),
        Ok(Verdict::Wrong { page, rule }) => match wrong_line(alloc, page, rule) {
            Ok(line) => say(host, line.as_bytes(), Status::Damaged { page }),
            Err(NoMemory) => Status::NoMemory,
        },
        Err(CheckError::NotAStore) => Status::NotAStore,
        Err(CheckError::Disk) => Status::DiskFault,
        Err(CheckError::Memory) => Status::NoMemory,
    }
}

// The line for a page that breaks a rule.
fn wrong_line(alloc: Global, page: u32, rule: PageRule) -> Result<String, NoMemory>
    ensures { IfOk result (λ line. string_bytes line ≡ wrong_line page rule) }
{
    Ok(format!(in alloc; "wrong {} {}\n", page, rule_word(rule))?)
}

// The word for a rule.
fn rule_word(rule: PageRule) -> &'static str
    ensures { result.now ≡ rule_word rule }
{
    match rule {
        PageRule::Header => "header",
        PageRule::Free => "free",
        PageRule::Catalog => "catalog",
        PageRule::Slotted => "slotted",
        PageRule::Missing => "missing",
        PageRule::Form => "form",
        PageRule::Chain => "chain",
        PageRule::Roots => "roots",
        PageRule::Twice => "twice",
        PageRule::Document => "document",
        PageRule::Weight => "weight",
        PageRule::Nodes => "nodes",
        PageRule::Unused => "unused",
    }
}
