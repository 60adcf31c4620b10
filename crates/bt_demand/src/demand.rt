//! The types of demands.
use bt_ports::blob::Blob;
use bt_ports::text::Text;

/// What became of the record of a leaf.
#[derive(Clone, Copy, Debug, PartialEq, Eq)]
pub enum State {
    /// It was not put yet.
    Untried,
    /// Its sink accepted it.
    Good,
    /// Its sink refused it.
    Bad,
}

/// How far a hold came.
#[derive(Clone, Copy, Debug, PartialEq, Eq)]
pub enum Stage {
    /// It was not reached yet.
    Untried,
    /// It waits to be released.
    Waiting,
    /// It was released, and its child may be settled.
    Released,
}

/// What a message asks for.
#[cycle(demand)]
#[derive(Drop)]
pub enum Demand {
    /// A record of these bytes for the sink of that number. `leaf` numbers the leaves of one demand.
    Leaf {
        leaf: u32,
        sink: u32,
        bytes: Blob,
        state: State,
    },
    /// Nothing.
    Drop,
    /// To be refused, for the reason that the text gives.
    Reject(Text),
    /// Each of the children.
    All(Demands),
    /// The first of the children that isn't lost.
    First(Demands),
    /// The child, once the hold of that number is released. `ends` says that the message ends the hold's batch,
    /// and `size` is the length of the message in bytes.
    Hold {
        node: u32,
        ends: bool,
        size: u64,
        child: Box<Demand>,
        stage: Stage,
    },
}

/// Demands in order.
#[cycle(demand)]
#[derive(Drop)]
pub struct Demands {
    pub list: Vec<Demand>,
}
