//! When a batch ends.
ghost use Rattle.std.specs.Prelude.{◌≡◌, ℕ, ◌-◌, ◌^◌, ◌<◌, IfOk, min};
ghost use Rattle.bt_intake.specs.Batches.{ends_at, passes_at};

use bt_items::metadata;
use bt_mappings::{Spot, check};
use bt_ports::NoMemory;
use bt_ports::parts::Item;
use bt_ready::Ready;
use bt_value::Msg;
use std::alloc::Global;

/// When a batch ends: at its first item at which it has `count` items, or at least `byte_size` bytes, or whose check passes.
///
/// A number of 0 switches its condition off, and so does no check. With all off, every item is a batch.
#[derive(Drop)]
pub struct Policy {
    /// So many items.
    pub count: u32,
    /// So many bytes of its items together.
    pub byte_size: u64,
    /// A check of its last item, as a message at its place in the batch, at the moment 0.
    pub check: Option<Ready>,
}

/// An item, and what its check says.
#[derive(Drop)]
pub(crate) struct Tested {
    pub(crate) item: Item,
    pub(crate) passes: Result<bool, NoMemory>,
}

impl Policy {
    /// Every item is a batch.
    pub const SINGLE: Policy = Policy {
        count: 0,
        byte_size: 0,
        check: None,
    };

    /// Whether a batch ends by its number of items and of bytes alone, where `bytes` is that of its bytes, or the last value of
    /// the type where it has more.
    pub(crate) fn is_full(&self, items: usize, bytes: u64) -> bool
        ensures { (all : ℕ) → bytes ≡ min (2 ^ 64 - 1) all → result ≡ ends_at self.now items all }
    {
        let off = self.count == 0 && self.byte_size == 0 && self.check.is_none();
        (off && items > 0)
            || (self.count > 0 && self.count as usize <= items)
            || (self.byte_size > 0 && self.byte_size <= bytes)
    }
}

/// What a check says of the last item of a batch of `size` items.
pub(crate) fn test(alloc: Global, r: &Ready, size: u32, item: Item) -> Tested
    requires some { 0 < size }
    ensures item { result.item ≡ item }
    ensures passes { IfOk result.passes (λ b. b ≡ passes_at r.now size item) }
{
    let Item { bytes, path } = item;
    let meta = match metadata(alloc, &path) {
        Ok(meta) => meta,
        Err(NoMemory) => {
            return Tested {
                item: Item { bytes, path },
                passes: Err(NoMemory),
            };
        }
    };
    let message = Msg {
        content: bytes,
        meta,
        flag: None,
    };
    let spot = Spot {
        index: size - 1,
        size,
        moment: 0,
    };
    let passes = check(alloc, r, &message, spot);
    let Msg { content, .. } = message;
    Tested {
        item: Item {
            bytes: content,
            path,
        },
        passes,
    }
}
