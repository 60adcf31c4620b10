//! A sink that keeps its records.
ghost use Rattle.std.specs.Prelude.{◌≡◌, ◌≤◌, [], ◌∷◌, ◌++◌, true, if◌then◌else◌, IsTrue, OnErr, OnOk, is_err};
ghost use Rattle.bt_ports.specs.Faults.{Rose, one_more};
ghost use Rattle.bt_ports.specs.Memory.{is_named};
ghost use Rattle.bt_ports.specs.Sink.{PutAdds};

use crate::NoMemory;
use crate::blob::Blob;
use crate::memory::names;
use crate::outside::Sink;
use crate::parts::{Calls, Record, Records, SinkFailed};
use crate::sequence::Sequence;
use std::alloc::Global;
use std::marker::Model;

/// A sink that keeps the records that it accepts and those that it refuses.
///
/// Where it finds no memory it counts a fault, and tells nothing from then on.
#[derive(Drop)]
pub struct MemSink {
    alloc: Global,
    failing: Calls,
    made: u64,
    faults: u64,
    lost: bool,
    place: u64,
    accepted: Records,
    refused: Records,
}

impl Model for MemSink {
    ghost use Rattle.std.specs.Prelude.{not};
    ghost use Rattle.bt_ports.specs.Memory.{SinkView};

    ghost Value = { SinkView };

    ghost view = { λ s. record { faults = s.faults; place = s.place; tells = not s.lost; accepted = s.accepted.list; refused = s.refused.list; failing = s.failing.list; made = s.made } };
}

impl MemSink {
    /// A sink whose puts of the numbers in `failing` fail.
    pub fn make(alloc: Global, failing: Calls) -> MemSink
        ensures { result ≡ record { faults = 0; place = 0; tells = true; accepted = []; refused = []; failing = failing.list; made = 0 } }
    {
        MemSink {
            alloc,
            failing,
            made: 0,
            faults: 0,
            lost: false,
            place: 0,
            accepted: Sequence::new(alloc),
            refused: Sequence::new(alloc),
        }
    }

    /// The records that were accepted.
    pub fn accepted(&self) -> &Records
        ensures { result.now.list ≡ self.now.accepted }
    {
        &self.accepted
    }

    /// The records that were refused.
    pub fn refused(&self) -> &Records
        ensures { result.now.list ≡ self.now.refused }
    {
        &self.refused
    }

    // The record is kept at the end of a list.
    fn keep(&mut self, accepts: bool, kept: Record) -> Result<(), NoMemory>
        ensures err { OnErr result (self.new ≡ self.old) }
        ensures ok { OnOk result (self.new ≡ (if accepts then record self.old { accepted = self.old.accepted ++ kept ∷ [] } else record self.old { refused = self.old.refused ++ kept ∷ [] })) }
    {
        let kept = if accepts {
            self.accepted.push(kept)
        } else {
            self.refused.push(kept)
        };
        match kept {
            Ok(()) => Ok(()),
            Err(_) => Err(NoMemory),
        }
    }

    // The sink at a place of the list of calls.
    pub(crate) fn placed(self, place: u64) -> MemSink
        ensures { result ≡ record self { place = place } }
    {
        let mut placed = self;
        placed.place = place;
        placed
    }
}

impl Sink for MemSink {
    ghost faults = { λ s. s.faults };

    ghost place = { λ s. s.place };

    ghost tells = { λ s. s.tells };

    ghost accepted = { λ s. s.accepted };

    ghost refused = { λ s. s.refused };

    fn put(
        &mut self,
        txn: u64,
        part: u32,
        leaf: u32,
        batch: u64,
        bytes: &[u8],
    ) -> Result<(), SinkFailed>
        ensures counted { self.old.faults ≤ self.new.faults }
        ensures failed { OnErr result (Rose self.old.faults self.new.faults) }
        ensures told { IsTrue self.new.tells → IsTrue self.old.tells }
        ensures adds { IsTrue self.new.tells → PutAdds result (record { txn = txn; part = part; leaf = leaf; batch = batch; bytes = bytes.now }) self.old.accepted self.old.refused self.new.accepted self.new.refused }

        // A put fails exactly where its number is named, and where memory is wanting: then the sink tells no more.
        ensures fails { IsTrue self.new.tells → is_err result ≡ is_named self.old.failing self.new.made }
        ensures loses { OnOk result (self.new.tells ≡ self.old.tells) }
        ensures stays { self.new ≡ record self.old { faults = (if is_err result then one_more self.old.faults else self.old.faults); tells = self.new.tells; accepted = self.new.accepted; refused = self.new.refused; made = one_more self.old.made } }
    {
        self.made = self.made.saturating_add(1);
        let accepts = !names(&self.failing, self.made);
        match Blob::make(self.alloc, bytes) {
            Ok(bytes) => {
                let kept = Record {
                    txn,
                    part,
                    leaf,
                    batch,
                    bytes,
                };
                match self.keep(accepts, kept) {
                    Ok(()) => {
                        if accepts {
                            return Ok(());
                        }
                    }
                    Err(NoMemory) => self.lost = true,
                }
            }
            Err(NoMemory) => self.lost = true,
        }
        self.faults = self.faults.saturating_add(1);
        Err(SinkFailed)
    }
}
