//! What passes through the outside: items, transactions, records, verdicts, and the answers of its calls.
use crate::blob::Blob;
use crate::sequence::Sequence;
use crate::text::Text;

/// One message of the input, with the path of the file that it came from, if it has one.
#[derive(Drop)]
pub struct Item {
    pub bytes: Blob,
    pub path: Option<Text>,
}

/// The items of a batch in order, which are numbered from 0.
pub type Items = Sequence<Item>;

/// One batch that the input handed over. Transactions are numbered from 1, and `moment` is in milliseconds.
#[derive(Drop)]
pub struct Txn {
    pub number: u64,
    pub moment: u64,
    pub items: Items,
}

/// One message as a sink was given it, with the numbers of its transaction, its part of the transaction, the
/// leaf of the output that writes it, and its batch (0 where it is in none).
#[derive(Drop)]
pub struct Record {
    pub txn: u64,
    pub part: u32,
    pub leaf: u32,
    pub batch: u64,
    pub bytes: Blob,
}

/// Records in the order of their puts.
pub type Records = Sequence<Record>;

/// Why an item was refused.
#[derive(Clone, Copy, Debug, PartialEq, Eq)]
pub enum Cause {
    /// The record of this leaf and part was refused by its sink.
    SinkFault { leaf: u32, part: u32 },
    /// This part was rejected.
    Rejected { part: u32 },
    /// There was no memory.
    NoMemory,
}

/// The answer for one item.
#[derive(Clone, Copy, Debug, PartialEq, Eq)]
pub enum Verdict {
    Ack,
    Refused(Cause),
}

/// One call at an answerer, and whether it failed.
#[derive(Drop)]
pub struct AnswerCall {
    pub number: u64,
    pub item: u64,
    pub verdict: Verdict,
    pub why: Blob,
    pub failed: bool,
}

/// The calls at an answerer in their order.
pub type AnswerCalls = Sequence<AnswerCall>;

/// What a read of a source gives.
#[derive(Clone, Copy, Debug, PartialEq, Eq)]
pub enum Read {
    /// So many bytes at the beginning of the buffer.
    Count(usize),
    End,
    Failed,
}

/// What an intake gives.
#[derive(Drop)]
pub enum Next {
    Batch(Items),
    End,
    Failed,
    /// The line of this number, from 1, is longer than lines may be.
    LongLine(u64),
    /// The input is longer than inputs may be.
    Bound,
    NoMemory,
}

/// What an opening gives.
#[derive(Drop)]
pub enum Opened<T> {
    Got(T),
    Failed,
    NoMemory,
}

/// What the reading of a file gives.
#[derive(Drop)]
pub enum FileRead {
    Bytes(Blob),
    TooLong,
    Failed,
    NoMemory,
}

/// A record was refused.
#[derive(Clone, Copy, Debug, PartialEq, Eq)]
pub struct SinkFailed;

/// An answer was not taken.
#[derive(Clone, Copy, Debug, PartialEq, Eq)]
pub struct AnswerFailed;

/// A piece was not printed whole.
#[derive(Clone, Copy, Debug, PartialEq, Eq)]
pub struct PrintFailed;

/// A source, with the path that the items read from it have.
#[derive(Drop)]
pub struct Named<S> {
    pub path: Option<Text>,
    pub source: S,
}

/// Sources in the order in which they are read.
pub type Sources<S> = Sequence<Named<S>>;

/// Sinks by number.
pub type Sinks<K> = Sequence<K>;

/// Printers by number.
pub type Printers<P> = Sequence<P>;

/// What a world was asked for.
#[derive(Clone, Copy, Debug, PartialEq, Eq)]
pub enum What {
    File,
    Source,
    Sink,
    Answers,
    Trace,
}

/// One reading of a file or opening of an object, and whether it failed.
///
/// `name` is the path or name that the call was given, if it was given one, and `end` the closing bytes that
/// a sink was opened with.
#[derive(Drop)]
pub struct Asked {
    pub what: What,
    pub name: Option<Text>,
    pub failed: bool,
    pub end: Option<Blob>,
}

/// Readings and openings in their order.
pub type AskedList = Sequence<Asked>;

/// Numbers of calls, counted from 1.
pub type Calls = Sequence<u64>;

/// Moments in milliseconds.
pub type Moments = Sequence<u64>;

/// Runs of bytes.
pub type Blobs = Sequence<Blob>;

/// The ends of a run: where it reads, where it writes, where it answers, and its clock.
#[derive(Drop)]
pub struct Ends<S, K, A, C> {
    pub sources: Sources<S>,
    pub sinks: Sinks<K>,
    pub answerer: A,
    pub clock: C,
}

/// The printers of a trace: one for the clock's readings, one for the answers, and one for each sink.
#[derive(Drop)]
pub struct TracePrinters<P> {
    pub clock: P,
    pub answers: P,
    pub sinks: Printers<P>,
}
