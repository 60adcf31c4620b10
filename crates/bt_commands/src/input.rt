//! The input of a command that reads lines.
ghost use Rattle.std.specs.Prelude.{◌≡◌, ℕ, ◌-◌, ◌^◌, ◌≤◌, List, [], ◌∷◌, IfOk, IfErr, IsTrue, Option, Some, None};
ghost use Rattle.std.specs.List.{All};
ghost use Rattle.bt_ports.specs.Intake.{stop_of, NextFaults, NextLowers, NextGives, NextStops, NextMeets};
ghost use Rattle.bt_intake.specs.Answers.{HasOneItem, FailsWhereOneRose};
ghost use Rattle.bt_intake.specs.Sources.{all_tell, told, openings, inputs, fault_count, SourcesKept};
ghost use Rattle.bt_commands.specs.Input.{batches, stop};
ghost use Rattle.bt_commands.specs.Inputs.{Standing};

use bt_intake::intake::LineIntake;
use bt_intake::policy::Policy;
use bt_ports::NoMemory;
use bt_ports::blob::Blob;
use bt_ports::outside::{Intake, Source};
use bt_ports::parts::{Next, Sources};
use std::alloc::Global;
use std::marker::Model;

/// The lines of some sources, as the input of a command: each ends with a line feed, and is a batch of its own.
#[derive(Drop)]
pub struct LineInput<S: Source> {
    lines: LineIntake<S>,
}

impl<S: Source> Model for LineInput<S> {
    ghost use Rattle.bt_commands.specs.View.{InputView};

    ghost Value = { InputView S };

    ghost use Rattle.bt_commands.specs.Inside.{view_of, Holds};

    ghost view = { λ a. view_of a.lines };

    ghost invariant = { λ a. Holds a.lines };
}

impl<S: Source> LineInput<S> {
    /// An input of the lines of `sources`, which takes `bound` bytes of them at most, all together.
    ///
    /// It reads nothing yet. Where there is no memory the sources come back as they were.
    pub fn make(
        alloc: Global,
        sources: Sources<S>,
        bound: u64,
    ) -> Result<LineInput<S>, (NoMemory, Sources<S>)>
        requires bound_fits { bound ≤ 2 ^ 48 }
        requires untaken { IsTrue (all_tell ⟦<S as Source>⟧ sources.list) → All (λ n. ⟦<S as Source>⟧.taken n.source ≡ 0) sources.list }
        ensures ok { IfOk result (λ i. i ≡ record { sources = sources; bound = bound; taken = 0; given = 0; stopped = None }) }
        ensures err { IfErr result (λ e. e.1 ≡ sources) }
    {
        let Ok(delimiter) = Blob::make(alloc, b"\n".as_slice()) else {
            return Err((NoMemory, sources));
        };
        let lines = LineIntake::make(alloc, sources, delimiter, Policy::SINGLE, bound)?;
        Ok(LineInput { lines })
    }

    /// The sources as they stand. This takes no memory.
    pub fn into_sources(self) -> Sources<S>
        ensures sources { result ≡ self.sources }
        ensures standing { Standing ⟦<S as Source>⟧ self }
    {
        let LineInput { lines } = self;
        lines.into_sources()
    }
}

impl<S: Source> Intake for LineInput<S> {
    ghost faults = { λ i. fault_count ⟦<S as Source>⟧ i.sources.list };

    ghost left = { λ i. i.bound - i.given };

    ghost stopped = { λ i. i.stopped };

    ghost tells = { λ i. all_tell ⟦<S as Source>⟧ i.sources.list };

    ghost batches = { λ i. batches i.bound (told ⟦<S as Source>⟧ i.sources.list) };

    ghost given = { λ i. i.given };

    ghost openings = { λ i. openings ⟦<S as Source>⟧ i.sources.list };

    ghost inputs = { λ i. inputs ⟦<S as Source>⟧ i.sources.list };

    ghost stop = { λ i. stop i.bound (told ⟦<S as Source>⟧ i.sources.list) };

    ghost bounds = { λ i. i.bound ∷ [] };

    ghost bound = { λ i. i.bound };

    /// Gives the next line as a batch, or says why there is none.
    fn next(&mut self) -> Next
        requires { self.old.stopped ≡ None }

        // What every intake promises.
        ensures counted { fault_count ⟦<S as Source>⟧ self.old.sources.list ≤ fault_count ⟦<S as Source>⟧ self.new.sources.list }
        ensures failed { NextFaults result (fault_count ⟦<S as Source>⟧ self.old.sources.list) (fault_count ⟦<S as Source>⟧ self.new.sources.list) }
        ensures lowers { NextLowers result (self.old.bound - self.old.given) (self.new.bound - self.new.given) }
        ensures stops { self.new.stopped ≡ stop_of result }
        ensures told { IsTrue (all_tell ⟦<S as Source>⟧ self.new.sources.list) → IsTrue (all_tell ⟦<S as Source>⟧ self.old.sources.list) }
        ensures placed { openings ⟦<S as Source>⟧ self.new.sources.list ≡ openings ⟦<S as Source>⟧ self.old.sources.list }
        ensures bounded { (self.new.bound ∷ []) ≡ (self.old.bound ∷ []) }
        ensures meets { NextMeets result (self.old.bound ∷ []) self.old.bound self.new.bound }
        ensures same { IsTrue (all_tell ⟦<S as Source>⟧ self.new.sources.list) → batches self.new.bound (told ⟦<S as Source>⟧ self.new.sources.list) ≡ batches self.old.bound (told ⟦<S as Source>⟧ self.old.sources.list) }
        ensures read { IsTrue (all_tell ⟦<S as Source>⟧ self.new.sources.list) → inputs ⟦<S as Source>⟧ self.new.sources.list ≡ inputs ⟦<S as Source>⟧ self.old.sources.list }
        ensures stays { IsTrue (all_tell ⟦<S as Source>⟧ self.new.sources.list) → stop self.new.bound (told ⟦<S as Source>⟧ self.new.sources.list) ≡ stop self.old.bound (told ⟦<S as Source>⟧ self.old.sources.list) }
        ensures gives { IsTrue (all_tell ⟦<S as Source>⟧ self.new.sources.list) → NextGives result (batches self.old.bound (told ⟦<S as Source>⟧ self.old.sources.list)) self.old.given self.new.given }
        ensures ends { IsTrue (all_tell ⟦<S as Source>⟧ self.new.sources.list) → NextStops result (stop self.old.bound (told ⟦<S as Source>⟧ self.old.sources.list)) self.new.bound }

        // What this one promises beside.
        ensures one { HasOneItem result }
        ensures failing { FailsWhereOneRose ⟦<S as Source>⟧ result self.old.sources.list self.new.sources.list }
        ensures kept { SourcesKept ⟦<S as Source>⟧ self.old.sources.list self.new.sources.list }
        ensures standing { Standing ⟦<S as Source>⟧ self.new }
    {
        self.lines.next()
    }
}
