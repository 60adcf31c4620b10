//! The lines of some sources as an intake.
ghost use Rattle.std.specs.Prelude.{◌≡◌, ℕ, ◌+◌, ◌-◌, ◌^◌, ◌<◌, ◌≤◌, List, [], ◌∷◌, IfOk, IfErr, IsTrue, true, Option, Some, None, length};
ghost use Rattle.std.specs.List.{All};
ghost use Rattle.bt_ports.specs.Intake.{stop_of, NextFaults, NextLowers, NextGives, NextStops, NextMeets};
ghost use Rattle.bt_intake.specs.Batches.{batches, is_off};
ghost use Rattle.bt_lines.specs.Lines.{stop};
ghost use Rattle.bt_intake.specs.Sources.{all_tell, told, openings, inputs, fault_count, SourcesKept};
ghost use Rattle.bt_intake.specs.Answers.{Standing, HasOneItem, FailsWhereOneRose, ReadsLate};

use crate::batches::Batches;
use crate::policy::Policy;
use bt_ports::NoMemory;
use bt_ports::blob::Blob;
use bt_ports::outside::{Intake, Source};
use bt_ports::parts::{Next, Sources};
use std::alloc::Global;
use std::marker::Model;

/// The lines of some sources as an intake, in batches. Each item has its source's path.
///
/// A line ends with the delimiter, or with its source, where bytes stand behind the last delimiter. Delimiters are found from
/// the left and don't overlap. Where the delimiter is a line feed, one carriage return at a line's end is dropped. No line
/// crosses two sources, and none has more than 65,536 bytes before its delimiter. A batch ends as its policy says, and at the
/// last line.
#[derive(Drop)]
pub struct LineIntake<S: Source> {
    batches: Batches<S>,
    stopped: Option<Next>,
}

impl<S: Source> Model for LineIntake<S> {
    ghost use Rattle.bt_intake.specs.View.{LineView};
    ghost use Rattle.bt_ready.specs.contracts.ready.Ready.{the_row};
    ghost use Rattle.std.specs.Coded.{codes};

    ghost Value = { LineView S };

    ghost coded = { Prim.hlevel (codes, the_row.coded) };

    ghost use Rattle.bt_intake.specs.Inside.{view_of, Holds};

    ghost view = { λ a. view_of a.batches a.stopped };

    ghost invariant = { λ a. Holds ⟦<S as Source>⟧ a.batches a.stopped };
}

/// The answer other than a batch, if it is one.
fn stop(answer: &Next) -> Option<Next>
    ensures { result ≡ stop_of answer.now }
{
    match answer {
        Next::Batch(_) => None,
        Next::End => Some(Next::End),
        Next::Failed => Some(Next::Failed),
        Next::LongLine(n) => Some(Next::LongLine(*n)),
        Next::Bound => Some(Next::Bound),
        Next::NoMemory => Some(Next::NoMemory),
    }
}

impl<S: Source> LineIntake<S> {
    /// An intake of the lines of `sources`, which takes `bound` bytes of them at most, all together.
    ///
    /// The delimiter has at most 16 bytes. It reads nothing yet. Where there is no memory the sources come back as they were.
    pub fn make(
        alloc: Global,
        sources: Sources<S>,
        delimiter: Blob,
        policy: Policy,
        bound: u64,
    ) -> Result<LineIntake<S>, (NoMemory, Sources<S>)>
        requires delimiter { (1 ≤ length delimiter) × (length delimiter ≤ 16) }
        requires bound_fits { bound ≤ 2 ^ 48 }
        requires untaken { IsTrue (all_tell ⟦<S as Source>⟧ sources.list) → All (λ n. ⟦<S as Source>⟧.taken n.source ≡ 0) sources.list }
        ensures ok { IfOk result (λ i. i ≡ record { sources = sources; delimiter = delimiter; policy = policy; bound = bound; taken = 0; given = 0; items = 0; stopped = None }) }
        ensures err { IfErr result (λ e. e.1 ≡ sources) }
    {
        Ok(LineIntake {
            batches: Batches::make(alloc, sources, delimiter, policy, bound),
            stopped: None,
        })
    }

    /// The sources as they stand. This takes no memory.
    pub fn into_sources(self) -> Sources<S>
        ensures sources { result ≡ self.sources }
        ensures standing { Standing ⟦<S as Source>⟧ self }
    {
        let LineIntake {
            batches,
            stopped: _,
        } = self;
        batches.into_sources()
    }
}

impl<S: Source> Intake for LineIntake<S> {
    ghost faults = { λ i. fault_count ⟦<S as Source>⟧ i.sources.list };

    ghost left = { λ i. i.bound - i.items };

    ghost stopped = { λ i. i.stopped };

    ghost tells = { λ i. all_tell ⟦<S as Source>⟧ i.sources.list };

    ghost batches = { λ i. batches i.delimiter i.policy i.bound (told ⟦<S as Source>⟧ i.sources.list) };

    ghost given = { λ i. i.given };

    ghost openings = { λ i. openings ⟦<S as Source>⟧ i.sources.list };

    ghost inputs = { λ i. inputs ⟦<S as Source>⟧ i.sources.list };

    ghost stop = { λ i. stop i.delimiter i.bound (told ⟦<S as Source>⟧ i.sources.list) };

    ghost bounds = { λ i. i.bound ∷ [] };

    ghost bound = { λ i. i.bound };

    /// Gives the next batch, or says why there is none.
    ///
    /// A source is read only while each batch that is closed in the bytes taken was given, and these bytes show no long
    /// line. A failed read ends the intake, and the unfinished batch is dropped then. So does want of memory, wherever it comes.
    /// All lines before a long one, or before the bound, are given in batches before the answer that says so.
    fn next(&mut self) -> Next
        requires { self.old.stopped ≡ None }

        // What every intake promises.
        ensures counted { fault_count ⟦<S as Source>⟧ self.old.sources.list ≤ fault_count ⟦<S as Source>⟧ self.new.sources.list }
        ensures failed { NextFaults result (fault_count ⟦<S as Source>⟧ self.old.sources.list) (fault_count ⟦<S as Source>⟧ self.new.sources.list) }
        ensures lowers { NextLowers result (self.old.bound - self.old.items) (self.new.bound - self.new.items) }
        ensures stops { self.new.stopped ≡ stop_of result }
        ensures told { IsTrue (all_tell ⟦<S as Source>⟧ self.new.sources.list) → IsTrue (all_tell ⟦<S as Source>⟧ self.old.sources.list) }
        ensures placed { openings ⟦<S as Source>⟧ self.new.sources.list ≡ openings ⟦<S as Source>⟧ self.old.sources.list }
        ensures bounded { (self.new.bound ∷ []) ≡ (self.old.bound ∷ []) }
        ensures meets { NextMeets result (self.old.bound ∷ []) self.old.bound self.new.bound }
        ensures same { IsTrue (all_tell ⟦<S as Source>⟧ self.new.sources.list) → batches self.new.delimiter self.new.policy self.new.bound (told ⟦<S as Source>⟧ self.new.sources.list) ≡ batches self.old.delimiter self.old.policy self.old.bound (told ⟦<S as Source>⟧ self.old.sources.list) }
        ensures read { IsTrue (all_tell ⟦<S as Source>⟧ self.new.sources.list) → inputs ⟦<S as Source>⟧ self.new.sources.list ≡ inputs ⟦<S as Source>⟧ self.old.sources.list }
        ensures stays { IsTrue (all_tell ⟦<S as Source>⟧ self.new.sources.list) → stop self.new.delimiter self.new.bound (told ⟦<S as Source>⟧ self.new.sources.list) ≡ stop self.old.delimiter self.old.bound (told ⟦<S as Source>⟧ self.old.sources.list) }
        ensures gives { IsTrue (all_tell ⟦<S as Source>⟧ self.new.sources.list) → NextGives result (batches self.old.delimiter self.old.policy self.old.bound (told ⟦<S as Source>⟧ self.old.sources.list)) self.old.given self.new.given }
        ensures ends { IsTrue (all_tell ⟦<S as Source>⟧ self.new.sources.list) → NextStops result (stop self.old.delimiter self.old.bound (told ⟦<S as Source>⟧ self.old.sources.list)) self.new.bound }

        // What this one promises beside.
        ensures one { is_off self.old.policy ≡ true → HasOneItem result }
        ensures same_form { (self.new.delimiter ≡ self.old.delimiter) × (self.new.policy ≡ self.old.policy) }
        ensures failing { FailsWhereOneRose ⟦<S as Source>⟧ result self.old.sources.list self.new.sources.list }
        ensures kept { SourcesKept ⟦<S as Source>⟧ self.old.sources.list self.new.sources.list }
        ensures taken { self.old.taken ≤ self.new.taken }
        ensures late { IsTrue (all_tell ⟦<S as Source>⟧ self.new.sources.list) → self.old.taken < self.new.taken → ReadsLate self.old.delimiter self.old.policy self.old.taken self.new.taken self.old.given (told ⟦<S as Source>⟧ self.new.sources.list) }
        ensures standing { Standing ⟦<S as Source>⟧ self.new }
    {
        let answer = self.batches.next();
        self.stopped = stop(&answer);
        answer
    }
}
