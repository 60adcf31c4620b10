//! Where a run answers.
ghost use Rattle.std.specs.Prelude.{◌≡◌, [], false};

use crate::stream::{Stream, Written};
use bt_ports::outside::Answerer;
use bt_ports::parts::{AnswerFailed, Cause, Verdict};
use itoa::Buffer;
use std::alloc::{AllocError, Global};
use std::str;

/// An answerer that appends a line for each answer to a file, or writes nothing and never fails where it has none. It
/// tells nothing of its calls.
///
/// Once a part of a line was written and not the rest, every later answer fails.
#[derive(Drop)]
pub struct RealAnswerer {
    alloc: Global,
    stream: Option<Stream>,
    line: Vec<u8>,
    torn: bool,
    faults: u64,
}

// Puts a number's decimal digits behind the line.
fn push_number(line: &mut Vec<u8>, number: u64) -> Result<(), AllocError> {
    let mut digits = Buffer::new();
    line.extend_from_slice(digits.format(number).as_bytes())
}

// Puts a text behind the line, as JSON has it. Bytes that are no UTF-8 are replaced.
fn push_json(alloc: Global, line: &mut Vec<u8>, text: &[u8]) -> Result<(), AllocError> {
    let text = String::from_utf8_lossy(alloc, text)?;
    match serde_json::to_string(alloc, &text) {
        Ok(json) => line.extend_from_slice(json.as_bytes()),
        Err(_) => Err(AllocError),
    }
}

// Puts a cause behind the line.
fn push_cause(
    alloc: Global,
    line: &mut Vec<u8>,
    cause: Cause,
    why: &[u8],
) -> Result<(), AllocError> {
    match cause {
        Cause::SinkFault { leaf, part } => {
            line.extend_from_slice(b"sink fault leaf ")?;
            push_number(line, u64::from(leaf))?;
            line.extend_from_slice(b" part ")?;
            push_number(line, u64::from(part))
        }
        Cause::Rejected { part } => {
            line.extend_from_slice(b"rejected part ")?;
            push_number(line, u64::from(part))?;
            line.extend_from_slice(b": ")?;
            push_json(alloc, line, why)
        }
        Cause::NoMemory => line.extend_from_slice(b"no memory"),
    }
}

// Puts an answer behind the line, with its line break: the number of the transaction, that of the item, and the verdict.
fn push_answer(
    alloc: Global,
    line: &mut Vec<u8>,
    number: u64,
    item: u64,
    verdict: Verdict,
    why: &[u8],
) -> Result<(), AllocError> {
    push_number(line, number)?;
    line.extend_from_slice(b" ")?;
    push_number(line, item)?;
    match verdict {
        Verdict::Ack => line.extend_from_slice(b" ack")?,
        Verdict::Refused(cause) => {
            line.extend_from_slice(b" refused ")?;
            push_cause(alloc, line, cause, why)?;
        }
    }
    line.extend_from_slice(b"\n")
}

impl RealAnswerer {
    /// An answerer that writes to `stream`, if there is one.
    pub fn make(alloc: Global, stream: Option<Stream>) -> RealAnswerer
        ensures { result.faults ≡ 0 }
    {
        RealAnswerer {
            alloc,
            stream,
            line: Vec::new(alloc),
            torn: false,
            faults: 0,
        }
    }

    // Whether the whole line was written, or none is wanted.
    fn write(&mut self, number: u64, item: u64, verdict: Verdict, why: &[u8]) -> bool
        ensures { self.new.faults ≡ self.old.faults }
    {
        let Some(stream) = &mut self.stream else {
            return true;
        };
        self.line.clear();
        if self.torn
            || push_answer(self.alloc, &mut self.line, number, item, verdict, why).is_err()
        {
            return false;
        }
        let written = stream.write_all(self.line.as_slice());
        self.torn = written == Written::Part;
        written == Written::All
    }
}

impl Answerer for RealAnswerer {
    ghost faults = { λ s. s.faults };

    ghost place = { λ _. 0 };

    ghost tells = { λ _. false };

    ghost calls = { λ _. [] };

    fn answer(
        &mut self,
        number: u64,
        item: u64,
        verdict: &Verdict,
        why: &[u8],
    ) -> Result<(), AnswerFailed> {
        if self.write(number, item, *verdict, why) {
            return Ok(());
        }
        self.faults = self.faults.saturating_add(1);
        Err(AnswerFailed)
    }
}
