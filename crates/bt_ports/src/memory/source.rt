//! A source over bytes.
ghost use Rattle.std.specs.Prelude.{◌≡◌, ◌-◌, ◌<◌, ◌≤◌, length, min, if◌then◌else◌, true};
ghost use Rattle.bt_ports.specs.Faults.{one_more};
ghost use Rattle.bt_ports.specs.Memory.{is_named};
ghost use Rattle.bt_ports.specs.Source.{ReadFits, ReadFaults, ReadTakes, read_failed, IfCount};

use crate::blob::Blob;
use crate::memory::names;
use crate::outside::Source;
use crate::parts::{Calls, Read};
use std::marker::Model;

/// A source that gives its bytes in pieces.
#[derive(Drop)]
pub struct MemSource {
    bytes: Blob,
    at: usize,
    piece: usize,
    failing: Calls,
    made: u64,
    faults: u64,
    place: u64,
}

impl Model for MemSource {
    ghost use Rattle.std.specs.Prelude.{◌≤◌, length};
    ghost use Rattle.bt_ports.specs.Memory.{SourceView};

    ghost Value = { SourceView };

    ghost view = { λ s. record { faults = s.faults; place = s.place; bytes = s.bytes; taken = s.at; piece = s.piece; failing = s.failing.list; made = s.made } };

    ghost invariant = { λ s. (s.at ≤ length s.bytes) × (1 ≤ s.piece) };
}

impl MemSource {
    /// A source over `bytes`, each read of which gives at most `piece` of them.
    pub fn make(bytes: Blob, piece: usize, failing: Calls) -> MemSource
        requires { 1 ≤ piece }
        ensures { result ≡ record { faults = 0; place = 0; bytes = bytes; taken = 0; piece = piece; failing = failing.list; made = 0 } }
    {
        MemSource {
            bytes,
            at: 0,
            piece,
            failing,
            made: 0,
            faults: 0,
            place: 0,
        }
    }

    // The source from its beginning, at a place of the list of calls.
    pub(crate) fn placed(self, place: u64) -> MemSource
        ensures { result ≡ record self { faults = 0; place = place; taken = 0; made = 0 } }
    {
        let mut placed = self;
        placed.at = 0;
        placed.made = 0;
        placed.faults = 0;
        placed.place = place;
        placed
    }
}

impl Source for MemSource {
    ghost faults = { λ s. s.faults };

    ghost place = { λ s. s.place };

    ghost tells = { λ _. true };

    ghost bytes = { λ s. s.bytes };

    ghost taken = { λ s. s.taken };

    fn read(&mut self, buf: &mut [u8]) -> Read
        requires { 0 < length buf.old }
        ensures fits { ReadFits result (length buf.old) }
        ensures counted { self.old.faults ≤ self.new.faults }
        ensures failed { ReadFaults result self.old.faults self.new.faults }
        ensures takes { ReadTakes result self.old.bytes self.old.taken self.new.taken buf.new }

        // A read that doesn't fail gives as much as it can, and it fails exactly where its number is named.
        ensures least { IfCount result (λ n. n ≡ min (min self.old.piece (length buf.old)) (length self.old.bytes - self.old.taken)) }
        ensures fails { read_failed result ≡ is_named self.old.failing self.new.made }
        ensures stays { self.new ≡ record self.old { faults = (if read_failed result then one_more self.old.faults else self.old.faults); taken = self.new.taken; made = one_more self.old.made } }
    {
        self.made = self.made.saturating_add(1);
        if names(&self.failing, self.made) {
            self.faults = self.faults.saturating_add(1);
            return Read::Failed;
        }
        let at = self.at;
        let bytes = self.bytes.as_slice();
        let left = bytes.len() - at;
        if left == 0 {
            return Read::End;
        }
        let n = self.piece.min(buf.len()).min(left);
        buf[..n].copy_from_slice(&bytes[at..at + n]);
        self.at = at + n;
        Read::Count(n)
    }
}
