//! The lines of some sources in batches.
ghost use Rattle.std.specs.Prelude.{◌≡◌, ◌+◌, ◌++◌, ◌^◌, ◌<◌, ◌≤◌, [], ◌∷◌, length, IsTrue, OnOk, true, false};
ghost use Rattle.std.specs.List.{All};
ghost use Rattle.bt_ports.specs.Intake.{NextFaults};
ghost use Rattle.bt_intake.specs.Batches.{bytes_in, ends, ends_at};
ghost use Rattle.bt_intake.specs.Gathering.{Alive, AliveAfter, BatchesHold, Gathers, BatchAnswers, BatchSteps, BatchFaults, Adds, AddsLast, Ends, Stops, StopsWith, size_of};
ghost use Rattle.bt_intake.specs.Sources.{all_tell, fault_count};

use crate::policy::{Policy, Tested, test};
use crate::reader::{LineReader, NextLine};
use crate::reading::Readable;
use bt_ports::NoMemory;
use bt_ports::blob::Blob;
use bt_ports::parts::{Item, Items, Next, Sources};
use bt_ports::sequence::Sequence;
use std::alloc::Global;
use std::mem;

/// The reader of the lines, and the items of a batch that hasn't ended.
#[derive(Drop)]
pub(crate) struct Batches<S> {
    pub(crate) reader: LineReader<S>,
    pub(crate) policy: Policy,
    pub(crate) batch: Items,
    /// How many bytes its items have, or the last value of the type where they have more.
    pub(crate) size: u64,
    /// How many batches were given.
    pub(crate) given: u64,
    /// Whether want of memory left open if the batch at hand ends with its last item. Nothing is given then.
    pub(crate) lost: bool,
}

impl<S: Readable> Batches<S> {
    /// The batches of which nothing was given.
    pub(crate) fn make(
        alloc: Global,
        sources: Sources<S>,
        delimiter: Blob,
        policy: Policy,
        bound: u64,
    ) -> Batches<S>
        requires some { 1 ≤ length delimiter }
        requires bound_fits { bound ≤ 2 ^ 48 }
        requires untaken { IsTrue (all_tell S.shown sources.list) → All (λ n. S.shown.taken n.source ≡ 0) sources.list }
        ensures holds { BatchesHold S.shown result }
        ensures reader { (result.reader.sources ≡ sources) × (result.reader.delimiter ≡ delimiter) × (result.reader.bound ≡ bound) × (result.reader.taken ≡ 0) × (result.reader.given ≡ 0) }
        ensures made { (result.policy ≡ policy) × (result.batch.list ≡ []) × (result.given ≡ 0) × (result.lost ≡ false) }
    {
        Batches {
            reader: LineReader::make(alloc, sources, delimiter, bound),
            policy,
            batch: Sequence::new(alloc),
            size: 0,
            given: 0,
            lost: false,
        }
    }

    /// The sources as they stand.
    pub(crate) fn into_sources(self) -> Sources<S>
        ensures { result ≡ self.reader.sources }
    {
        let Batches {
            reader,
            policy: _,
            batch: _,
            size: _,
            given: _,
            lost: _,
        } = self;
        reader.into_sources()
    }

    /// Makes room for one more item in the batch at hand.
    fn make_room(&mut self) -> Result<(), NoMemory>
        ensures same { self.new ≡ record self.old { batch = self.new.batch } }
        ensures list { self.new.batch.list ≡ self.old.batch.list }
        ensures ok { OnOk result ((1 ≤ self.new.batch.spare) × (length self.new.batch.list + 1 < 2 ^ 32)) }
    {
        if self.batch.len() >= u32::MAX as usize {
            return Err(NoMemory);
        }
        self.batch.reserve(1)
    }

    /// Gives the items of the batch at hand.
    fn end_batch(&mut self) -> Items
        requires { self.old.given + 1 < 2 ^ 64 }
        ensures { Ends self.old self.new result.list }
    {
        self.size = 0;
        self.given += 1;
        mem::replace(&mut self.batch, Sequence::new(self.reader.alloc))
    }

    /// Adds an item to the batch at hand, which ends with it.
    fn add_last(&mut self, item: Item) -> Items
        requires room { 1 ≤ self.old.batch.spare }
        requires given { self.old.given + 1 < 2 ^ 64 }
        requires ended { ends self.old.policy (self.old.batch.list ++ item ∷ []) ≡ true }
        ensures { AddsLast item result.list self.old self.new }
    {
        self.batch.push_reserved(item);
        self.end_batch()
    }

    /// Adds an item to the batch at hand, which may end with it by its check alone.
    fn add_by_check(&mut self, item: Item) -> Result<Option<Items>, NoMemory>
        requires room { 1 ≤ self.old.batch.spare }
        requires few { length self.old.batch.list + 1 < 2 ^ 32 }
        requires size { self.old.size ≡ size_of (self.old.batch.list ++ item ∷ []) }
        requires given { self.old.given + 1 < 2 ^ 64 }
        requires full { ends_at self.old.policy (length (self.old.batch.list ++ item ∷ [])) (bytes_in (self.old.batch.list ++ item ∷ [])) ≡ false }
        ensures { Adds result item self.old self.new }
    {
        let size = self.batch.len() as u32 + 1;
        let Some(r) = &self.policy.check else {
            self.batch.push_reserved(item);
            return Ok(None);
        };
        let Tested { item, passes } = test(self.reader.alloc, r, size, item);
        match passes {
            Ok(true) => Ok(Some(self.add_last(item))),
            Ok(false) => {
                self.batch.push_reserved(item);
                Ok(None)
            }
            Err(NoMemory) => {
                self.batch.push_reserved(item);
                self.lost = true;
                Err(NoMemory)
            }
        }
    }

    /// Adds an item to the batch at hand, and gives that where it ends.
    fn add(&mut self, item: Item) -> Result<Option<Items>, NoMemory>
        requires room { 1 ≤ self.old.batch.spare }
        requires few { length self.old.batch.list + 1 < 2 ^ 32 }
        requires size { self.old.size ≡ size_of self.old.batch.list }
        requires given { self.old.given + 1 < 2 ^ 64 }
        ensures { Adds result item self.old self.new }
    {
        self.size = self.size.saturating_add(item.bytes.as_slice().len() as u64);
        if self.policy.is_full(self.batch.len() + 1, self.size) {
            return Ok(Some(self.add_last(item)));
        }
        self.add_by_check(item)
    }

    /// Gives the rest as the last batch, where there is any.
    fn give_rest(&mut self) -> Option<Items>
        requires given { self.old.given + 1 < 2 ^ 64 }
        ensures { Stops result self.old self.new }
    {
        if self.batch.is_empty() {
            return None;
        }
        Some(self.end_batch())
    }

    /// Gives the rest as the last batch, and then the answer at which the lines stop.
    fn stop(&mut self, answer: Next) -> Next
        requires given { self.old.given + 1 < 2 ^ 64 }
        ensures { StopsWith answer result self.old self.new }
    {
        match self.give_rest() {
            Some(items) => Next::Batch(items),
            None => answer,
        }
    }

    /// What the next line makes of the batch at hand, which has room for it.
    fn take_line(&mut self) -> Option<Next>
        requires holds { BatchesHold S.shown self.old }
        requires alive { self.old.lost ≡ false }
        requires room { 1 ≤ self.old.batch.spare }
        requires few { length self.old.batch.list + 1 < 2 ^ 32 }
        ensures holds { BatchesHold S.shown self.new }
        ensures alive { Alive result self.new }
        ensures gathers { Gathers S.shown self.old self.new }
        ensures steps { BatchSteps S.shown result self.old self.new }
        ensures faults { BatchFaults result (fault_count S.shown self.old.reader.sources.list) (fault_count S.shown self.new.reader.sources.list) }
    {
        match self.reader.next() {
            NextLine::Line(item) => match self.add(item) {
                Ok(Some(items)) => Some(Next::Batch(items)),
                Ok(None) => None,
                Err(NoMemory) => Some(Next::NoMemory),
            },
            NextLine::End => Some(self.stop(Next::End)),
            NextLine::LongLine(n) => Some(self.stop(Next::LongLine(n))),
            NextLine::Bound => Some(self.stop(Next::Bound)),
            NextLine::Failed => Some(Next::Failed),
            NextLine::NoMemory => Some(Next::NoMemory),
        }
    }

    /// One step towards the next answer.
    fn step(&mut self) -> Option<Next>
        requires holds { BatchesHold S.shown self.old }
        requires alive { self.old.lost ≡ false }
        ensures holds { BatchesHold S.shown self.new }
        ensures alive { Alive result self.new }
        ensures gathers { Gathers S.shown self.old self.new }
        ensures steps { BatchSteps S.shown result self.old self.new }
        ensures faults { BatchFaults result (fault_count S.shown self.old.reader.sources.list) (fault_count S.shown self.new.reader.sources.list) }
    {
        match self.make_room() {
            Ok(()) => self.take_line(),
            Err(NoMemory) => Some(Next::NoMemory),
        }
    }

    /// The next answer.
    pub(crate) fn next(&mut self) -> Next
        requires holds { BatchesHold S.shown self.old }
        requires alive { self.old.lost ≡ false }
        ensures holds { BatchesHold S.shown self.new }
        ensures alive { AliveAfter result self.new }
        ensures gathers { Gathers S.shown self.old self.new }
        ensures answers { BatchAnswers S.shown result self.old self.new }
        ensures faults { NextFaults result (fault_count S.shown self.old.reader.sources.list) (fault_count S.shown self.new.reader.sources.list) }
    {
        'steps: loop {
            if let Some(answer) = self.step() {
                return answer;
            }
        }
    }
}
