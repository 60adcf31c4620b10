//! The real outside as a whole.
ghost use Rattle.std.specs.Prelude.{◌≡◌, [], false, None};

use crate::answerer::RealAnswerer;
use crate::clock::RealClock;
use crate::sink::RealSink;
use crate::source::{Input, RealSource};
use crate::stream::{Stream, Written};
use bt_ports::blob::Blob;
use bt_ports::memory::answerer::MemAnswerer;
use bt_ports::memory::clock::MemClock;
use bt_ports::memory::sink::MemSink;
use bt_ports::memory::source::MemSource;
use bt_ports::parts::{Ends, FileRead, Opened, PrintFailed, Sources};
use bt_ports::world::World;
use std::fs::File;
use std::io;
use std::io::{ErrorKind, Read as _};

/// Files, the standard streams and the wall clock. It counts failures, and tells nothing of content.
#[derive(Drop)]
pub struct RealWorld {
    rt: HostRuntime,
    stdout: Stream,
    stderr: Stream,
    stdin_opened: bool,
    file_faults: u64,
    open_faults: u64,
    print_faults: u64,
}

impl RealWorld {
    /// The world of this runtime.
    pub fn make(rt: HostRuntime) -> RealWorld {
        let stdout = Stream::stdout(&rt);
        let stderr = Stream::stderr(&rt);
        RealWorld {
            rt,
            stdout,
            stderr,
            stdin_opened: false,
            file_faults: 0,
            open_faults: 0,
            print_faults: 0,
        }
    }

    // The stream of a sink of that name: `stdout`, or `file:` and a path.
    fn sink_stream(&self, name: &str) -> io::Result<Stream> {
        if name == "stdout" {
            return Ok(Stream::stdout(&self.rt));
        }
        match name.strip_prefix("file:") {
            Some(path) => Stream::append(&self.rt, path),
            None => Err(io::Error::from(ErrorKind::InvalidInput)),
        }
    }
}

// What a file has, where that is no more than the limit.
fn load(rt: &HostRuntime, path: &str, limit: u64) -> FileRead {
    let Ok(mut file) = File::open(rt, path) else {
        return FileRead::Failed;
    };
    let mut bytes = Vec::new(rt.alloc());
    let mut chunk = [0u8; 16_384];
    for _ in 0..u64::MAX {
        match file.read(&mut chunk) {
            Ok(0) => return FileRead::Bytes(Blob::from_vec(bytes)),
            Ok(count) => {
                if bytes.extend_from_slice(&chunk[..count]).is_err() {
                    return FileRead::NoMemory;
                }
                if bytes.len() as u64 > limit {
                    return FileRead::TooLong;
                }
            }
            Err(error) => {
                if error.kind() != ErrorKind::Interrupted {
                    break;
                }
            }
        }
    }
    FileRead::Failed
}

impl World for RealWorld {
    type S = RealSource;

    type K = RealSink;

    type A = RealAnswerer;

    type C = RealClock;

    ghost tells = { λ _. false };

    ghost tells_printed = { λ _. false };

    ghost tells_lines = { λ _. false };

    ghost tale = { λ _. record { files = λ _. None; stdin = []; clock = []; calls = []; printed = []; lines = []; clocks = 0; keeps = 0; kept = None; input_keeps = 0; kept_input = None; load_keeps = 0; kept_load = None } };

    ghost file_faults = { λ w. w.file_faults };

    ghost open_faults = { λ w. w.open_faults };

    ghost print_faults = { λ w. w.print_faults };

    fn read_file(&mut self, path: &str, limit: u64) -> FileRead {
        let read = load(&self.rt, path, limit);
        if let FileRead::Failed = read {
            self.file_faults = self.file_faults.saturating_add(1);
        }
        read
    }

    fn open_source(&mut self, name: &str) -> Opened<RealSource> {
        if name == "stdin" {
            if self.stdin_opened {
                return Opened::Got(RealSource::make(Input::Spent));
            }
            self.stdin_opened = true;
            return Opened::Got(RealSource::make(Input::Stdin(self.rt.stdin())));
        }
        match File::open(&self.rt, name) {
            Ok(file) => Opened::Got(RealSource::make(Input::File(file))),
            Err(_) => {
                self.open_faults = self.open_faults.saturating_add(1);
                Opened::Failed
            }
        }
    }

    fn open_sink(&mut self, name: &str, end: &[u8]) -> Opened<RealSink> {
        match self.sink_stream(name) {
            Ok(stream) => match RealSink::make(self.rt.alloc(), stream, end) {
                Ok(sink) => Opened::Got(sink),
                Err(_) => Opened::NoMemory,
            },
            Err(_) => {
                self.open_faults = self.open_faults.saturating_add(1);
                Opened::Failed
            }
        }
    }

    fn open_answers(&mut self, path: Option<&str>) -> Opened<RealAnswerer> {
        let Some(path) = path else {
            return Opened::Got(RealAnswerer::make(self.rt.alloc(), None));
        };
        match Stream::append(&self.rt, path) {
            Ok(stream) => Opened::Got(RealAnswerer::make(self.rt.alloc(), Some(stream))),
            Err(_) => {
                self.open_faults = self.open_faults.saturating_add(1);
                Opened::Failed
            }
        }
    }

    fn take_clock(&mut self) -> RealClock {
        RealClock::make(self.rt)
    }

    fn keep(&mut self, _ends: Ends<RealSource, RealSink, RealAnswerer, RealClock>)
        ensures steady { (self.new.file_faults ≡ self.old.file_faults) × (self.new.open_faults ≡ self.old.open_faults) × (self.new.print_faults ≡ self.old.print_faults) }
    {}

    fn keep_input(&mut self, _sources: Sources<RealSource>)
        ensures steady { (self.new.file_faults ≡ self.old.file_faults) × (self.new.open_faults ≡ self.old.open_faults) × (self.new.print_faults ≡ self.old.print_faults) }
    {}

    fn keep_load(&mut self, _ends: Ends<MemSource, MemSink, MemAnswerer, MemClock>)
        ensures steady { (self.new.file_faults ≡ self.old.file_faults) × (self.new.open_faults ≡ self.old.open_faults) × (self.new.print_faults ≡ self.old.print_faults) }
    {}

    fn print(&mut self, piece: &[u8]) -> Result<(), PrintFailed> {
        if self.stdout.write_all(piece) == Written::All {
            return Ok(());
        }
        self.print_faults = self.print_faults.saturating_add(1);
        Err(PrintFailed)
    }

    fn err(&mut self, line: &[u8]) {
        let mut piece = Vec::new(self.rt.alloc());
        if piece.extend_from_slice(line).is_ok() && piece.extend_from_slice(b"\n").is_ok() {
            let _ = self.stderr.write_all(piece.as_slice());
            return;
        }
        let _ = self.stderr.write_all(line);
        let _ = self.stderr.write_all(b"\n");
    }
}
