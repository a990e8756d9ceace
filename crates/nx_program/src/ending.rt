// How the program ends.
ghost use Rattle.std.specs.Prelude.{◌≡◌, ◌≤◌, length, option_map};
ghost use Rattle.std.specs.Process.{exit_status};
ghost use Rattle.nx_program.specs.Ending.{exit_number, error_line, heard_line, damaged_line};

use arrayvec::ArrayString;
use itoa::Buffer;
use nx_front::Status;
use std::process::ExitCode;

/// A line on standard error, without its end. None takes memory, so that want of it can be told.
pub type Line = ArrayString<64>;

/// How the program ends: the code to exit with, and the line to say on standard error, if there is one.
#[derive(Drop)]
pub struct Ending {
    pub code: ExitCode,
    pub line: Option<Line>,
}

// How it ends for this status, where standard error may be written to, and where it may not.
pub fn end(status: Status, heard: bool) -> Ending
    ensures code { exit_status result.code ≡ exit_number status }
    ensures line { option_map (λ line. line.bytes) result.line ≡ heard_line heard status }
{
    let line = if heard { line_of(status) } else { None };
    Ending {
        code: exit_code(status),
        line,
    }
}

fn line_of(status: Status) -> Option<Line>
    ensures { option_map (λ line. line.bytes) result ≡ error_line status }
{
    match status {
        Status::Done | Status::Refused => None,
        Status::Usage => Some(fixed_line("usage: natix STORE COMMAND [ARG]...")),
        Status::DiskFault => Some(fixed_line("disk fault")),
        Status::ReadFault => Some(fixed_line("read fault")),
        Status::WriteFault => Some(fixed_line("write fault")),
        Status::NoMemory => Some(fixed_line("out of memory")),
        Status::NotAStore => Some(fixed_line("not a store")),
        Status::Damaged { page } => Some(damaged_line(page)),
        Status::TooMuch => Some(fixed_line("too much input")),
    }
}

fn fixed_line(text: &str) -> Line
    requires { length text.now ≤ 64 }
    ensures { result.bytes ≡ text.now }
{
    let mut line = Line::new();
    line.push_str(text);
    line
}

fn damaged_line(page: u32) -> Line
    ensures { result.bytes ≡ damaged_line page }
{
    let mut digits = Buffer::new();
    let mut line = fixed_line("damaged page ");
    line.push_str(digits.format(page));
    line
}

fn exit_code(status: Status) -> ExitCode
    ensures { exit_status result ≡ exit_number status }
{
    ExitCode::from(match status {
        Status::Done => 0,
        Status::Usage => 1,
        Status::Refused => 2,
        Status::DiskFault => 3,
        Status::ReadFault => 4,
        Status::WriteFault => 5,
        Status::NoMemory => 6,
        Status::NotAStore => 7,
        Status::Damaged { .. } => 8,
        Status::TooMuch => 9,
    })
}
