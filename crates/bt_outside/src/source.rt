//! Where a run reads.
ghost use Rattle.std.specs.Prelude.{◌≡◌, ◌≤◌, [], false, length, IfOk, IfSome};

use bt_ports::outside::Source;
use bt_ports::parts::Read;
use std::fs::File;
use std::io;
use std::io::{ErrorKind, Read as _, Stdin};

/// What a source reads from.
#[derive(Drop)]
pub enum Input {
    Stdin(Stdin),
    File(File),
    /// Standard input that was opened before.
    Spent,
}

/// A source over standard input or a file, which tells nothing of content.
#[derive(Drop)]
pub struct RealSource {
    input: Input,
    faults: u64,
}

impl RealSource {
    /// A source that reads from `input`.
    pub fn make(input: Input) -> RealSource
        ensures { result.faults ≡ 0 }
    {
        RealSource { input, faults: 0 }
    }
}

impl Input {
    fn read_once(&mut self, buf: &mut [u8]) -> io::Result<usize>
        ensures { IfOk result (λ count. count ≤ length buf.old) }
    {
        match self {
            Input::Stdin(stdin) => stdin.read(buf),
            Input::File(file) => file.read(buf),
            Input::Spent => Ok(0),
        }
    }

    // Reads, and reads again after an interruption. Nothing is given where that fails.
    fn read(&mut self, buf: &mut [u8]) -> Option<usize>
        ensures { IfSome result (λ count. count ≤ length buf.old) }
    {
        for _ in 0..u64::MAX {
            match self.read_once(buf) {
                Ok(count) => return Some(count),
                Err(error) => {
                    if error.kind() != ErrorKind::Interrupted {
                        return None;
                    }
                }
            }
        }
        None
    }
}

impl Source for RealSource {
    ghost faults = { λ s. s.faults };

    ghost place = { λ _. 0 };

    ghost tells = { λ _. false };

    ghost bytes = { λ _. [] };

    ghost taken = { λ _. 0 };

    fn read(&mut self, buf: &mut [u8]) -> Read {
        match self.input.read(buf) {
            Some(0) => Read::End,
            Some(count) => Read::Count(count),
            None => {
                self.faults = self.faults.saturating_add(1);
                Read::Failed
            }
        }
    }
}
