//! Plans.
ghost use Rattle.std.specs.Prelude.{◌≡◌, length, true};
ghost use Rattle.bt_parts.specs.Plans.{stands_well};

use bt_demand::routes::HoldPolicies;
use bt_outputs::Output;
use bt_ports::blob::Blob;
use bt_ports::sequence::Sequence;
use bt_ports::text::Text;
use bt_proc::Procs;
use std::alloc::Global;

/// The names of sinks, by their numbers.
pub type Names = Sequence<Text>;

/// The closing bytes of sinks, by their numbers.
pub type Ends = Sequence<Blob>;

/// What a configuration says of transactions, made ready.
#[derive(Drop)]
pub struct Plan {
    /// Where the memory of what is derived comes from.
    pub alloc: Global,
    /// What the items of a transaction go through.
    pub procs: Procs,
    /// Where the messages go that come out.
    pub output: Output,
    /// The names of the sinks, in order of their first leaf.
    pub sinks: Names,
    /// The bytes that each sink writes after a message.
    pub ends: Ends,
    /// How many threads are to work.
    pub threads: u32,
    /// How many transactions may be open.
    pub window: u32,
    /// When each hold is released.
    pub holds: HoldPolicies,
    ghost stands: { stands_well (length sinks.list) (length holds.list) output ≡ true },
}

impl Plan {
    /// The names of the sinks, in order of their first leaf. It takes no memory.
    pub fn sinks(&self) -> &Names
        ensures { result.now ≡ self.now.sinks }
    {
        &self.sinks
    }

    /// The closing bytes of the sinks. It takes no memory.
    pub fn ends(&self) -> &Ends
        ensures { result.now ≡ self.now.ends }
    {
        &self.ends
    }

    /// How many threads are to work. It takes no memory.
    pub fn threads(&self) -> u32
        ensures { result ≡ self.now.threads }
    {
        self.threads
    }

    /// How many transactions may be open. It takes no memory.
    pub fn window(&self) -> u32
        ensures { result ≡ self.now.window }
    {
        self.window
    }
}
