//! Places that bytes are written to.
ghost use Rattle.std.specs.Prelude.{◌≤◌, length, IfOk};

use std::fs::{File, OpenOptions};
use std::io;
use std::io::{ErrorKind, Stderr, Stdout, Write};

/// A place that bytes are written to.
#[derive(Drop)]
pub enum Stream {
    Stdout(Stdout),
    Stderr(Stderr),
    File(File),
}

/// How much of a piece was written.
#[derive(Clone, Copy, PartialEq, Eq)]
pub enum Written {
    All,
    Part,
    Nothing,
}

impl Stream {
    /// Standard output.
    pub fn stdout(rt: &HostRuntime) -> Stream {
        Stream::Stdout(rt.stdout())
    }

    /// Standard error.
    pub fn stderr(rt: &HostRuntime) -> Stream {
        Stream::Stderr(rt.stderr())
    }

    /// The file at `path`, to be appended to, which is made where it is missing.
    pub fn append(rt: &HostRuntime, path: &str) -> io::Result<Stream> {
        let file = OpenOptions::new().append(true).create(true).open(rt, path)?;
        Ok(Stream::File(file))
    }

    fn write(&mut self, bytes: &[u8]) -> io::Result<usize>
        ensures { IfOk result (λ count. count ≤ length bytes.now) }
    {
        match self {
            Stream::Stdout(stdout) => stdout.write(bytes),
            Stream::Stderr(stderr) => stderr.write(bytes),
            Stream::File(file) => file.write(bytes),
        }
    }

    /// Writes the bytes in one write, and goes on after one that was short or interrupted.
    pub fn write_all(&mut self, bytes: &[u8]) -> Written {
        let mut rest = bytes;
        for _ in 0..u64::MAX {
            if rest.is_empty() {
                return Written::All;
            }
            match self.write(rest) {
                Ok(0) => break,
                Ok(count) => rest = &rest[count..],
                Err(error) => {
                    if error.kind() != ErrorKind::Interrupted {
                        break;
                    }
                }
            }
        }
        if rest.len() == bytes.len() {
            Written::Nothing
        } else {
            Written::Part
        }
    }
}
