// One run of the program after another, over the stores of a folder.
use nx_files::Streams;
use nx_program::run_process;
use std::alloc::{AllocError, AllocGlobal};
use std::fs::{File, Files};
use std::io::Read;
use std::test::Fail;
use std::thread::Threads;
use std::{env, fs, io, process};

/// A folder of its own for the stores of one test.
#[derive(Drop)]
pub struct Room<'a> {
    rt: &'a HostRuntime,
    folder: String,
}

/// What a run gave: the number that it ended with, as it is printed, its output, and the line on standard
/// error.
#[derive(Drop)]
pub struct Ended {
    code: String,
    output: Vec<u8>,
    line: String,
}

impl Ended {
    /// Whether these three are just so. The line is empty where none was said.
    pub fn is(&self, status: &str, output: &str, line: &str) -> bool {
        self.code.as_str() == status
            && self.output.as_slice() == output.as_bytes()
            && self.line.as_str() == line
    }
}

#[derive(Drop)]
struct Text<'a> {
    rest: &'a [u8],
}

impl Read for Text<'_> {
    fn read(&mut self, buf: &mut [u8]) -> io::Result<usize> {
        let count = buf.len().min(self.rest.len());
        let (taken, rest) = self.rest.split_at(count);
        buf[..count].copy_from_slice(taken);
        self.rest = rest;
        Ok(count)
    }
}

impl<'a> Room<'a> {
    /// Makes a folder, which has to be new.
    pub fn new(rt: &'a HostRuntime, test: &str) -> Result<Room<'a>, Fail> {
        let number = process::id(rt.process());
        let parent = env::temp_dir(rt)?;
        let parent = parent.as_str();
        let folder = format!(in rt.alloc(); "{parent}/nx_program-{number}-{test}")?;
        fs::create_dir(rt, folder.as_str())?;
        Ok(Room { rt, folder })
    }

    /// The path of a name in it.
    pub fn path(&self, name: &str) -> Result<String, AllocError> {
        let folder = self.folder.as_str();
        format!(in self.rt.alloc(); "{folder}/{name}")
    }

    /// Runs the command of these words over the store of this name, with this input.
    pub fn run<P>(&self, rt: &P, store: &str, words: &[&str], input: &str) -> Result<Ended, Fail>
    where
        P: AllocGlobal + Files<File = File> + Threads + Sync,
    {
        let alloc = rt.alloc();
        let mut arguments = Vec::new(alloc);
        arguments.push(String::from_str(alloc, "natix")?)?;
        arguments.push(self.path(store)?)?;
        for word in words {
            arguments.push(String::from_str(alloc, word)?)?;
        }
        let reader = Text {
            rest: input.as_bytes(),
        };
        let mut output = Vec::new(alloc);
        let ending = run_process(
            rt,
            Ok(arguments.into_iter()),
            reader,
            &mut output,
            |_reader: &Text<'_>, _writer: &&mut Vec<u8>| Ok(Streams::NO_FILES),
            true,
        );
        let line = match &ending.line {
            Some(line) => String::from_str(alloc, line.as_str())?,
            None => String::new(alloc),
        };
        let code = ending.code;
        let code = format!(in alloc; "{code:?}")?;
        Ok(Ended { code, output, line })
    }

    /// Removes the folder with all that is in it.
    pub fn remove(self) -> Result<(), Fail> {
        fs::remove_dir_all(self.rt, self.folder.as_str())?;
        Ok(())
    }
}
