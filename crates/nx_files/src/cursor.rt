// A file from an offset on, as a reader and a writer.
ghost use Rattle.std.specs.Prelude.{◌≡◌, ◌+◌, ◌-◌, ◌^◌, min, None, IfOk, OnErr};
ghost use Rattle.std.specs.Io.{ReadsAtMost, WritesAtMost};
ghost use Rattle.std.specs.Io.KnownBytes.{ReadConsumes, WriteAppends};

use std::fs::File;
use std::io;
use std::io::{Read, Write};
use std::os::unix::fs::FileExt;

// A position in a file that is nobody else's: the file's own is neither used nor moved.
#[derive(Drop)]
pub struct FileCursor<'a> {
    file: &'a File,
    at: u64,
}

impl<'a> FileCursor<'a> {
    pub fn new(file: &'a File, at: u64) -> FileCursor<'a> {
        FileCursor { file, at }
    }
}

impl Read for FileCursor<'_> {
    fn read(&mut self, buf: &mut [u8]) -> io::Result<usize>
        ensures bound { ReadsAtMost result buf.new }
        ensures bytes { ReadConsumes None None result buf.new }
        ensures moved { IfOk result (λ n. self.new.at ≡ min (self.old.at + n) (2 ^ 64 - 1)) }
        ensures failed { OnErr result (self.new ≡ self.old) }
    {
        let count = self.file.read_at(buf, self.at)?;
        self.at = self.at.saturating_add(count as u64);
        Ok(count)
    }
}

impl Write for FileCursor<'_> {
    fn write(&mut self, buf: &[u8]) -> io::Result<usize>
        ensures bound { WritesAtMost result buf.now }
        ensures bytes { WriteAppends None None result buf.now }
        ensures moved { IfOk result (λ n. self.new.at ≡ min (self.old.at + n) (2 ^ 64 - 1)) }
        ensures failed { OnErr result (self.new ≡ self.old) }
    {
        let count = self.file.write_at(buf, self.at)?;
        self.at = self.at.saturating_add(count as u64);
        Ok(count)
    }

    fn flush(&mut self) -> io::Result<()> {
        Ok(())
    }
}
