//! Inputs, made ready.

use bt_ports::blob::Blob;
use bt_ports::sequence::Sequence;
use bt_ports::text::Text;
use bt_ready::Ready;
use sqlite_items::{Boxed, Items};

/// The names of sources, in their order.
pub type Names = Sequence<Text>;

/// When a batch of an input ends: at its first item at which it has `count` items, or at least `byte_size` bytes, or of which
/// the check gives true. A number of 0 switches its condition off, and so does no check. With all off, every item is a batch.
#[derive(Drop)]
pub struct InputPolicy {
    /// So many items.
    pub count: u32,
    /// So many bytes of its items together.
    pub byte_size: u64,
    /// What of an item gives true.
    pub check: Option<Ready>,
}

/// An input.
#[derive(Drop)]
pub enum InputPlan {
    /// The lines of standard input, which end with the delimiter, in batches that end by the policy.
    Stdin(Blob, InputPolicy),
    /// The same of files, one after another.
    File(Names, Blob, InputPolicy),
    /// The records of files, or without names of standard input: the byte that parts their fields, and whether the first
    /// record of each source is its header.
    Csv(Names, u8, bool),
    /// Inputs one after another.
    Sequence(InputPlans),
    /// An input up to the first item of which the check gives true.
    Until(Boxed<InputPlan>, Ready),
    /// The items of an input in other batches.
    Regroup(Boxed<InputPlan>, InputPolicy),
}

/// Inputs in their order.
pub type InputPlans = Items<InputPlan>;
