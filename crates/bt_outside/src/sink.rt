//! Where a run writes.
ghost use Rattle.std.specs.Prelude.{◌≡◌, [], false, IfOk};

use crate::stream::{Stream, Written};
use bt_ports::outside::Sink;
use bt_ports::parts::SinkFailed;
use std::alloc::{AllocError, Global};

/// A sink over standard output or a file, which tells nothing of content.
///
/// A record is its bytes and the closing bytes that the sink was opened with. Once a part of a record was written and not
/// the rest, every later put fails, so that nothing is written behind the torn record.
#[derive(Drop)]
pub struct RealSink {
    stream: Stream,
    end: Vec<u8>,
    piece: Vec<u8>,
    torn: bool,
    faults: u64,
}

impl RealSink {
    /// A sink that writes to `stream`, with the bytes `end` after each message.
    pub fn make(alloc: Global, stream: Stream, end: &[u8]) -> Result<RealSink, AllocError>
        ensures { IfOk result (λ s. s.faults ≡ 0) }
    {
        Ok(RealSink {
            stream,
            end: Vec::from_slice(alloc, end)?,
            piece: Vec::new(alloc),
            torn: false,
            faults: 0,
        })
    }

    // Puts the message and the closing bytes into one piece.
    fn join(&mut self, bytes: &[u8]) -> Result<(), AllocError>
        ensures { self.new.faults ≡ self.old.faults }
    {
        self.piece.clear();
        self.piece.extend_from_slice(bytes)?;
        self.piece.extend_from_slice(self.end.as_slice())
    }

    // Whether the whole record was written.
    fn write(&mut self, bytes: &[u8]) -> bool
        ensures { self.new.faults ≡ self.old.faults }
    {
        if self.torn || self.join(bytes).is_err() {
            return false;
        }
        let written = self.stream.write_all(self.piece.as_slice());
        self.torn = written == Written::Part;
        written == Written::All
    }
}

impl Sink for RealSink {
    ghost faults = { λ s. s.faults };

    ghost place = { λ _. 0 };

    ghost tells = { λ _. false };

    ghost accepted = { λ _. [] };

    ghost refused = { λ _. [] };

    fn put(
        &mut self,
        _txn: u64,
        _part: u32,
        _leaf: u32,
        _batch: u64,
        bytes: &[u8],
    ) -> Result<(), SinkFailed> {
        if self.write(bytes) {
            return Ok(());
        }
        self.faults = self.faults.saturating_add(1);
        Err(SinkFailed)
    }
}
