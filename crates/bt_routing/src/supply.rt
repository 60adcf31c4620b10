//! The bytes of a message, which so many records are to have.
ghost use Rattle.std.specs.Prelude.{◌≡◌, ◌-◌, ◌<◌, IfOk, OnOk};

use bt_ports::NoMemory;
use bt_ports::blob::Blob;
use std::alloc::Global;
use std::mem;

/// The bytes of a message, and how many records are left that are to have them.
#[derive(Drop)]
pub(crate) struct Supply {
    pub(crate) bytes: Blob,
    pub(crate) left: usize,
}

/// The bytes for one record: the last one takes them, and each other has a copy.
pub(crate) fn take(alloc: Global, supply: &mut Supply) -> Result<Blob, NoMemory>
    ensures bytes { IfOk result (λ b. b ≡ supply.old.bytes) }
    ensures left { OnOk result (supply.new.left ≡ supply.old.left - 1) }
    ensures stays { OnOk result (0 < supply.new.left → supply.new.bytes ≡ supply.old.bytes) }
{
    supply.left = supply.left.saturating_sub(1);
    if supply.left == 0 {
        Ok(mem::replace(&mut supply.bytes, Blob::new(alloc)))
    } else {
        Blob::make(alloc, supply.bytes.as_slice())
    }
}
