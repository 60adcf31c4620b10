//! The lines of some sources, one after another.
ghost use Rattle.std.specs.Prelude.{◌≡◌, ℕ, ◌+◌, ◌^◌, ◌<◌, ◌≤◌, [], length, take, drop, slice_get, IfOk, IfErr, IfSome, OnOk, OnErr, MatchOption, MatchBool, IsTrue};
ghost use Rattle.std.specs.List.{All};
ghost use Rattle.bt_lines.specs.Pieces.{NoneIn, FirstAt};
ghost use Rattle.bt_lines.specs.declared.TheConstants.{LONGEST};
ghost use Rattle.bt_intake.specs.Ending.{MayEnd, IsTooLong};
ghost use Rattle.bt_intake.specs.Reader.{uncut, ReaderHolds, MakesItem, Gives, ReadsMore, Goes, Steps, StepFaults, LineFaults, Answers, line_of};
ghost use Rattle.bt_intake.specs.declared.reader.NextLine.{NextLine};
ghost use Rattle.bt_intake.specs.Sources.{all_tell, fault_count, SourcesKept, Ended};
ghost use Rattle.bt_ports.specs.Source.{ReadFaults};

use crate::line::{first_place, item_bytes, may_end};
use crate::reading::{Readable, read_behind};
use bt_lines::LONGEST;
use bt_ports::NoMemory;
use bt_ports::blob::Blob;
use bt_ports::parts::{Item, Read, Sources};
use bt_ports::text::Text;
use std::alloc::Global;
use std::mem;

/// How many bytes a read takes at most.
const BUFFER_SIZE: usize = 4096;

/// What stands in the room of a read before it.
static ZEROS: [u8; 4096] = [0; 4096];

/// What the reader gives.
#[derive(Drop)]
pub(crate) enum NextLine {
    Line(Item),
    End,
    Failed,
    /// The line of this number, from 1, is longer than lines may be.
    LongLine(u64),
    Bound,
    NoMemory,
}

/// The sources, the bytes that were taken of them and aren't cut yet, and what was taken and given.
#[derive(Drop)]
pub(crate) struct LineReader<S> {
    pub(crate) alloc: Global,
    pub(crate) sources: Sources<S>,
    /// The place of the source that is read.
    pub(crate) at: usize,
    pub(crate) delimiter: Blob,
    /// Bytes that were taken; those from `from` on aren't cut yet.
    pub(crate) window: Vec<u8>,
    pub(crate) from: usize,
    /// At none of so many places of them does a delimiter stand, whatever follows.
    pub(crate) clear: usize,
    /// The room of an earlier window.
    pub(crate) spare: Vec<u8>,
    pub(crate) bound: u64,
    pub(crate) taken: u64,
    pub(crate) given: u64,
}

impl<S: Readable> LineReader<S> {
    /// A reader of which nothing was taken or given.
    pub(crate) fn make(
        alloc: Global,
        sources: Sources<S>,
        delimiter: Blob,
        bound: u64,
    ) -> LineReader<S>
        requires some { 1 ≤ length delimiter }
        requires bound_fits { bound ≤ 2 ^ 48 }
        requires untaken { IsTrue (all_tell S.shown sources.list) → All (λ n. S.shown.taken n.source ≡ 0) sources.list }
        ensures holds { ReaderHolds S.shown result }
        ensures made { (result.sources ≡ sources) × (result.delimiter ≡ delimiter) × (result.bound ≡ bound) × (result.taken ≡ 0) × (result.given ≡ 0) }
    {
        LineReader {
            alloc,
            sources,
            at: 0,
            delimiter,
            window: Vec::new(alloc),
            from: 0,
            clear: 0,
            spare: Vec::new(alloc),
            bound,
            taken: 0,
            given: 0,
        }
    }

    /// The sources as they stand.
    pub(crate) fn into_sources(self) -> Sources<S>
        ensures { result ≡ self.sources }
    {
        let LineReader {
            alloc: _,
            sources,
            at: _,
            delimiter: _,
            window: _,
            from: _,
            clear: _,
            spare: _,
            bound: _,
            taken: _,
            given: _,
        } = self;
        sources
    }

    /// The place of the first delimiter in the bytes that aren't cut.
    fn first_delimiter(&self) -> Option<usize>
        requires { ReaderHolds S.shown self.now }
        ensures { MatchOption result (NoneIn self.now.delimiter (uncut self.now)) (λ n. FirstAt self.now.delimiter (uncut self.now) n) }
    {
        let bytes = &self.window[self.from + self.clear..];
        match first_place(bytes, self.delimiter.as_slice()) {
            Some(place) => Some(self.clear + place),
            None => None,
        }
    }

    /// Whether the bytes that aren't cut may still be the begin of a line that isn't too long.
    fn may_end(&self) -> bool
        requires { ReaderHolds S.shown self.now }
        ensures { MatchBool result (MayEnd self.now.delimiter (uncut self.now)) (IsTooLong self.now.delimiter (uncut self.now)) }
    {
        may_end(&self.window[self.from..], self.delimiter.as_slice())
    }

    /// The path of the source at hand.
    fn path(&self) -> Result<Option<Text>, NoMemory>
        requires { self.now.at < length self.now.sources.list }
        ensures { IfOk result (λ path. IfSome (slice_get self.now.sources.list self.now.at) (λ named. path ≡ named.path)) }
    {
        match &self.sources.as_slice()[self.at].path {
            Some(path) => Ok(Some(Text::make(self.alloc, path.as_str())?)),
            None => Ok(None),
        }
    }

    /// The item of the line of the first n bytes that aren't cut.
    fn make_item(&self, n: usize) -> Result<Item, NoMemory>
        requires holds { ReaderHolds S.shown self.now }
        requires here { self.now.at < length self.now.sources.list }
        requires inside { n ≤ length (uncut self.now) }
        ensures { IfOk result (MakesItem self.now (take n (uncut self.now))) }
    {
        let path = self.path()?;
        let line = &self.window[self.from..self.from + n];
        let bytes = item_bytes(self.alloc, line, self.delimiter.as_slice())?;
        Ok(Item { bytes, path })
    }

    /// Gives the line that the delimiter at place n of the bytes that aren't cut ends.
    fn give_line(&mut self, n: usize) -> Result<Item, NoMemory>
        requires holds { ReaderHolds S.shown self.old }
        requires first { FirstAt self.old.delimiter (uncut self.old) n }
        requires short { n ≤ LONGEST }
        ensures holds { ReaderHolds S.shown self.new }
        ensures same { self.new ≡ record self.old { from = self.new.from; clear = self.new.clear; given = self.new.given } }
        ensures gives { Gives S.shown result self.old self.new }
    {
        let item = self.make_item(n)?;
        self.from += n + self.delimiter.as_slice().len();
        self.clear = 0;
        self.given += 1;
        Ok(item)
    }

    /// Gives the last piece of a source that ended, and passes that source.
    fn give_last(&mut self) -> Result<Item, NoMemory>
        requires holds { ReaderHolds S.shown self.old }
        requires here { self.old.at < length self.old.sources.list }
        requires fits { self.old.at + 1 < 2 ^ 64 }
        requires none { NoneIn self.old.delimiter (uncut self.old) }
        requires some { 1 ≤ length (uncut self.old) }
        requires short { length (uncut self.old) ≤ LONGEST }
        requires room { self.old.taken < self.old.bound }
        requires ended { IsTrue (all_tell S.shown self.old.sources.list) → Ended S.shown self.old.sources.list self.old.at }
        ensures holds { ReaderHolds S.shown self.new }
        ensures same { self.new ≡ record self.old { from = self.new.from; clear = self.new.clear; at = self.new.at; given = self.new.given } }
        ensures gives { Gives S.shown result self.old self.new }
    {
        let item = self.make_item(self.window.len() - self.from)?;
        self.from = self.window.len();
        self.clear = 0;
        self.at += 1;
        self.given += 1;
        Ok(item)
    }

    /// Keeps in mind that no delimiter stands in the bytes that aren't cut.
    fn pass_bytes(&mut self)
        requires holds { ReaderHolds S.shown self.old }
        requires none { NoneIn self.old.delimiter (uncut self.old) }
        ensures holds { ReaderHolds S.shown self.new }
        ensures same { self.new ≡ record self.old { clear = self.new.clear } }
    {
        let places = self.window.len() - self.from + 1;
        self.clear = places.saturating_sub(self.delimiter.as_slice().len());
    }

    /// Leaves the bytes that are cut behind, where there are any.
    fn drop_cut(&mut self) -> Result<(), NoMemory>
        requires holds { ReaderHolds S.shown self.old }
        ensures holds { ReaderHolds S.shown self.new }
        ensures same { self.new ≡ record self.old { window = self.new.window; from = self.new.from; spare = self.new.spare } }
        ensures kept { uncut self.new ≡ uncut self.old }
    {
        if self.from == 0 {
            return Ok(());
        }
        self.spare.clear();
        self.spare.extend_from_slice(&self.window[self.from..])?;
        mem::swap(&mut self.window, &mut self.spare);
        self.from = 0;
        Ok(())
    }

    /// Reads more of the source at hand: as much as a buffer takes, and no more than the bound leaves.
    fn read_more(&mut self) -> Result<Read, NoMemory>
        requires holds { ReaderHolds S.shown self.old }
        requires here { self.old.at < length self.old.sources.list }
        requires room { self.old.taken < self.old.bound }
        ensures holds { ReaderHolds S.shown self.new }
        ensures kept { SourcesKept S.shown self.old.sources.list self.new.sources.list }
        ensures same { (self.new.bound ≡ self.old.bound) × (self.new.given ≡ self.old.given) × (self.new.at ≡ self.old.at) × (self.new.delimiter ≡ self.old.delimiter) }
        ensures reads { IfOk result (λ r. ReadsMore S.shown r self.old self.new) }
        ensures faults { IfOk result (λ r. ReadFaults r (fault_count S.shown self.old.sources.list) (fault_count S.shown self.new.sources.list)) }
        ensures unread { IfErr result (λ e. (self.new.taken ≡ self.old.taken) × (self.new.sources ≡ self.old.sources)) }
    {
        let end = self.window.len();
        let size = (self.bound - self.taken).min(BUFFER_SIZE as u64) as usize;
        make_room(&mut self.window, size)?;
        match read_behind(&mut self.sources, self.at, &mut self.window, end) {
            Read::Count(n) => {
                self.window.truncate(end + n);
                self.taken += n as u64;
                Ok(Read::Count(n))
            }
            Read::End => {
                self.window.truncate(end);
                Ok(Read::End)
            }
            Read::Failed => {
                self.window.truncate(end);
                Ok(Read::Failed)
            }
        }
    }

    /// Passes a source that ended.
    fn pass_source(&mut self)
        requires holds { ReaderHolds S.shown self.old }
        requires here { self.old.at < length self.old.sources.list }
        requires fits { self.old.at + 1 < 2 ^ 64 }
        requires empty { uncut self.old ≡ [] }
        requires ended { IsTrue (all_tell S.shown self.old.sources.list) → Ended S.shown self.old.sources.list self.old.at }
        ensures holds { ReaderHolds S.shown self.new }
        ensures same { self.new ≡ record self.old { at = self.old.at + 1 } }
    {
        self.at += 1;
    }

    /// The answer that the next line is too long.
    fn long_line(&self) -> NextLine
        requires { ReaderHolds S.shown self.now }
        ensures { result ≡ NextLine.LongLine (self.now.given + 1) }
    {
        NextLine::LongLine(self.given + 1)
    }

    /// What is behind the last byte of a source that ended.
    fn end_source(&mut self) -> Option<NextLine>
        requires holds { ReaderHolds S.shown self.old }
        requires here { self.old.at < length self.old.sources.list }
        requires fits { self.old.at + 1 < 2 ^ 64 }
        requires none { NoneIn self.old.delimiter (uncut self.old) }
        requires room { self.old.taken < self.old.bound }
        requires ended { IsTrue (all_tell S.shown self.old.sources.list) → Ended S.shown self.old.sources.list self.old.at }
        ensures holds { ReaderHolds S.shown self.new }
        ensures same { self.new ≡ record self.old { from = self.new.from; clear = self.new.clear; at = self.new.at; given = self.new.given } }
        ensures steps { Steps S.shown result self.old self.new }
    {
        let left = self.window.len() - self.from;
        if left > LONGEST {
            return Some(self.long_line());
        }
        if left == 0 {
            self.pass_source();
            return None;
        }
        Some(line_or_none(self.give_last()))
    }

    /// Reads once: the step where no line waits, room is left and there is a source at hand.
    fn read_step(&mut self) -> Option<NextLine>
        requires holds { ReaderHolds S.shown self.old }
        requires here { self.old.at < length self.old.sources.list }
        requires fits { self.old.at + 1 < 2 ^ 64 }
        requires none { NoneIn self.old.delimiter (uncut self.old) }
        requires may_end { MayEnd self.old.delimiter (uncut self.old) }
        requires room { self.old.taken < self.old.bound }
        ensures holds { ReaderHolds S.shown self.new }
        ensures goes { Goes S.shown self.old self.new }
        ensures steps { Steps S.shown result self.old self.new }
        ensures faults { StepFaults result (fault_count S.shown self.old.sources.list) (fault_count S.shown self.new.sources.list) }
    {
        match self.read_more() {
            Ok(Read::Count(_)) => None,
            Ok(Read::Failed) => Some(NextLine::Failed),
            Ok(Read::End) => self.end_source(),
            Err(NoMemory) => Some(NextLine::NoMemory),
        }
    }

    /// Gives the line that the delimiter at place n ends, unless it is too long.
    fn cut_line(&mut self, n: usize) -> NextLine
        requires holds { ReaderHolds S.shown self.old }
        requires first { FirstAt self.old.delimiter (uncut self.old) n }
        ensures holds { ReaderHolds S.shown self.new }
        ensures same { self.new ≡ record self.old { from = self.new.from; clear = self.new.clear; given = self.new.given } }
        ensures answers { Answers S.shown result self.old self.new }
    {
        if n > LONGEST {
            return self.long_line();
        }
        line_or_none(self.give_line(n))
    }

    /// The answer at the bound.
    fn at_bound(&self) -> NextLine
        requires holds { ReaderHolds S.shown self.now }
        requires none { NoneIn self.now.delimiter (uncut self.now) }
        requires full { self.now.taken ≡ self.now.bound }
        ensures { Answers S.shown result self.now self.now }
    {
        if self.window.len() - self.from > LONGEST {
            return self.long_line();
        }
        NextLine::Bound
    }

    /// One step towards the next answer, where no delimiter stands in the bytes that aren't cut.
    fn step_on(&mut self) -> Option<NextLine>
        requires holds { ReaderHolds S.shown self.old }
        requires none { NoneIn self.old.delimiter (uncut self.old) }
        ensures holds { ReaderHolds S.shown self.new }
        ensures goes { Goes S.shown self.old self.new }
        ensures steps { Steps S.shown result self.old self.new }
        ensures faults { StepFaults result (fault_count S.shown self.old.sources.list) (fault_count S.shown self.new.sources.list) }
    {
        if !self.may_end() {
            return Some(self.long_line());
        }
        if self.taken == self.bound {
            return Some(self.at_bound());
        }
        if self.at == self.sources.len() {
            return Some(NextLine::End);
        }
        self.read_step()
    }

    /// One step towards the next answer.
    fn step(&mut self) -> Option<NextLine>
        requires holds { ReaderHolds S.shown self.old }
        ensures holds { ReaderHolds S.shown self.new }
        ensures goes { Goes S.shown self.old self.new }
        ensures steps { Steps S.shown result self.old self.new }
        ensures faults { StepFaults result (fault_count S.shown self.old.sources.list) (fault_count S.shown self.new.sources.list) }
    {
        if let Some(n) = self.first_delimiter() {
            return Some(self.cut_line(n));
        }
        self.pass_bytes();
        match self.drop_cut() {
            Ok(()) => self.step_on(),
            Err(NoMemory) => Some(NextLine::NoMemory),
        }
    }

    /// The next answer.
    pub(crate) fn next(&mut self) -> NextLine
        requires holds { ReaderHolds S.shown self.old }
        ensures holds { ReaderHolds S.shown self.new }
        ensures goes { Goes S.shown self.old self.new }
        ensures answers { Answers S.shown result self.old self.new }
        ensures faults { LineFaults result (fault_count S.shown self.old.sources.list) (fault_count S.shown self.new.sources.list) }
    {
        'steps: loop {
            if let Some(answer) = self.step() {
                return answer;
            }
        }
    }
}

/// Makes room for so many bytes behind those of the window.
fn make_room(window: &mut Vec<u8>, size: usize) -> Result<(), NoMemory>
    requires { size ≤ 4096 }
    ensures ok { OnOk result ((take (length window.old.items) window.new.items ≡ window.old.items) × (length window.new.items ≡ length window.old.items + size)) }
    ensures err { OnErr result (window.new.items ≡ window.old.items) }
{
    window.extend_from_slice(&ZEROS[..size])?;
    Ok(())
}

/// A line that was given, or want of memory.
fn line_or_none(given: Result<Item, NoMemory>) -> NextLine
    ensures { result ≡ line_of given }
{
    match given {
        Ok(item) => NextLine::Line(item),
        Err(NoMemory) => NextLine::NoMemory,
    }
}
