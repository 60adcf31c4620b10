//! A printer that keeps its bytes.
ghost use Rattle.std.specs.Prelude.{◌≡◌, ◌≤◌, [], true, if◌then◌else◌, IsTrue, OnErr, OnOk, is_err};
ghost use Rattle.bt_ports.specs.Faults.{Rose, one_more};
ghost use Rattle.bt_ports.specs.Memory.{is_named};
ghost use Rattle.bt_ports.specs.Printer.{PrintAdds};

use crate::NoMemory;
use crate::blob::Blob;
use crate::memory::names;
use crate::outside::Printer;
use crate::parts::{Calls, PrintFailed};
use std::alloc::Global;
use std::marker::Model;

/// A printer that keeps what is printed. A call that fails prints nothing.
///
/// Where it finds no memory it counts a fault, and tells nothing from then on.
#[derive(Drop)]
pub struct MemPrinter {
    failing: Calls,
    made: u64,
    faults: u64,
    lost: bool,
    place: u64,
    bytes: Blob,
}

impl Model for MemPrinter {
    ghost use Rattle.std.specs.Prelude.{not};
    ghost use Rattle.bt_ports.specs.Memory.{PrinterView};

    ghost Value = { PrinterView };

    ghost view = { λ s. record { faults = s.faults; place = s.place; tells = not s.lost; bytes = s.bytes; failing = s.failing.list; made = s.made } };
}

impl MemPrinter {
    /// A printer whose calls of the numbers in `failing` fail.
    pub fn make(alloc: Global, failing: Calls) -> MemPrinter
        ensures { result ≡ record { faults = 0; place = 0; tells = true; bytes = []; failing = failing.list; made = 0 } }
    {
        MemPrinter {
            failing,
            made: 0,
            faults: 0,
            lost: false,
            place: 0,
            bytes: Blob::new(alloc),
        }
    }

    /// What was printed.
    pub fn bytes(&self) -> &Blob
        ensures { result.now ≡ self.now.bytes }
    {
        &self.bytes
    }
}

impl Printer for MemPrinter {
    ghost faults = { λ s. s.faults };

    ghost place = { λ s. s.place };

    ghost tells = { λ s. s.tells };

    ghost bytes = { λ s. s.bytes };

    fn print(&mut self, piece: &[u8]) -> Result<(), PrintFailed>
        ensures counted { self.old.faults ≤ self.new.faults }
        ensures failed { OnErr result (Rose self.old.faults self.new.faults) }
        ensures told { IsTrue self.new.tells → IsTrue self.old.tells }
        ensures adds { PrintAdds result piece.now self.old.bytes self.new.bytes }

        // A call fails exactly where its number is named, and where memory is wanting: then the printer tells no more.
        // It prints nothing where it fails.
        ensures fails { IsTrue self.new.tells → is_err result ≡ is_named self.old.failing self.new.made }
        ensures loses { OnOk result (self.new.tells ≡ self.old.tells) }
        ensures nothing { OnErr result (self.new.bytes ≡ self.old.bytes) }
        ensures stays { self.new ≡ record self.old { faults = (if is_err result then one_more self.old.faults else self.old.faults); tells = self.new.tells; bytes = self.new.bytes; made = one_more self.old.made } }
    {
        self.made = self.made.saturating_add(1);
        if !names(&self.failing, self.made) {
            match self.bytes.push_all(piece) {
                Ok(()) => return Ok(()),
                Err(NoMemory) => self.lost = true,
            }
        }
        self.faults = self.faults.saturating_add(1);
        Err(PrintFailed)
    }
}
