//! The lines of an intake, one after another.
ghost use Rattle.std.specs.Prelude.{◌≡◌, ◌≤◌, ◌<◌, ◌+◌, ◌-◌, ◌^◌, None, IfErr, OnOk, IsTrue};
ghost use Rattle.bt_commands.specs.Inputs.{Standing};
ghost use Rattle.bt_intake.specs.Sources.{fault_count, SourcesKept};
ghost use Rattle.bt_ports.specs.Faults.{Rose};
ghost use Rattle.bt_commands.specs.Outside.{StillTold};
ghost use Rattle.bt_blobl.specs.Inside.{LineFaults, PassFaults, Going, Passed, TurnResult, PrintsOnly};
ghost use Rattle.bt_blobl.specs.Meaning.{task_of};
ghost use Rattle.bt_blobl.specs.declared.course.PassStop.{PassStop};

use crate::course::{Flags, Pass, PassStop};
use crate::outcome::map_line;
use bt_commands::input::LineInput;
use bt_ports::outside::{Intake, Source};
use bt_ports::parts::Next;
use bt_ports::world::World;
use bt_ready::Ready;
use std::alloc::Global;

// Maps the next line, which is the n-th, and gives whether its mapping failed.
fn map_next<W: World>(
    alloc: Global,
    ready: &Ready,
    flags: Flags,
    n: u64,
    intake: &mut LineInput<W::S>,
    world: &mut W,
) -> Result<bool, PassStop>
    requires { intake.old.stopped ≡ None }
    ensures told { StillTold ⟦<W as World>⟧ world.old world.new }
    ensures steady { (W.file_faults world.new ≡ W.file_faults world.old) × (W.open_faults world.new ≡ W.open_faults world.old) }
    ensures counted { OnOk result (W.print_faults world.new ≡ W.print_faults world.old) }
    ensures failed { IfErr result (λ stop. stop ≡ PassStop.PrintFailed → Rose (W.print_faults world.old) (W.print_faults world.new)) }
    ensures only { IsTrue (W.tells world.new) → PrintsOnly (W.tale world.old) (W.tale world.new) }
    ensures kept { SourcesKept ⟦<W::S as Source>⟧ intake.old.sources.list intake.new.sources.list }
    ensures bound { intake.new.bound ≡ intake.old.bound }
    ensures standing { Standing ⟦<W::S as Source>⟧ intake.new }
    ensures faults { LineFaults result (fault_count ⟦<W::S as Source>⟧ intake.old.sources.list) (fault_count ⟦<W::S as Source>⟧ intake.new.sources.list) }
    ensures goes { OnOk result (intake.new.stopped ≡ None) }
    ensures lowers { OnOk result ((intake.new.bound - intake.new.given) + 1 ≤ intake.old.bound - intake.old.given) }
    ensures turns { TurnResult ⟦<W::S as Source>⟧ (task_of ready.now.mapping flags) n result intake.old intake.new (W.tells world.new) (W.tells_printed world.new) (W.tells_lines world.new) (W.tale world.old) (W.tale world.new) }
{
    match intake.next() {
        Next::Batch(items) => map_line(alloc, ready, flags, n, items, world),
        Next::End => Err(PassStop::Ended),
        Next::Failed => Err(PassStop::ReadFault),
        Next::LongLine(line) => Err(PassStop::LongLine(line)),
        Next::Bound => Err(PassStop::Bound),
        Next::NoMemory => Err(PassStop::NoMemory),
    }
}

/// Maps the lines of the intake, and prints or says the outcome of each.
pub(crate) fn map_lines<W: World>(
    alloc: Global,
    ready: &Ready,
    flags: Flags,
    intake: &mut LineInput<W::S>,
    world: &mut W,
) -> Pass
    requires fresh { (intake.old.stopped ≡ None) × (intake.old.given ≡ 0) }
    requires bound { intake.old.bound ≤ 2 ^ 48 }
    ensures told { StillTold ⟦<W as World>⟧ world.old world.new }
    ensures steady { (W.file_faults world.new ≡ W.file_faults world.old) × (W.open_faults world.new ≡ W.open_faults world.old) }
    ensures failed { result.stop ≡ PassStop.PrintFailed → Rose (W.print_faults world.old) (W.print_faults world.new) }
    ensures only { IsTrue (W.tells world.new) → PrintsOnly (W.tale world.old) (W.tale world.new) }
    ensures kept { SourcesKept ⟦<W::S as Source>⟧ intake.old.sources.list intake.new.sources.list }
    ensures bound { intake.new.bound ≡ intake.old.bound }
    ensures standing { Standing ⟦<W::S as Source>⟧ intake.new }
    ensures faults { PassFaults result.stop (fault_count ⟦<W::S as Source>⟧ intake.old.sources.list) (fault_count ⟦<W::S as Source>⟧ intake.new.sources.list) }
    ensures passed { Passed ⟦<W::S as Source>⟧ (task_of ready.now.mapping flags) result intake.new (W.tells world.new) (W.tells_printed world.new) (W.tells_lines world.new) (W.tale world.old) (W.tale world.new) }
{
    let mut n = 0;
    let mut failed = false;
    'lines: loop {
        match map_next(alloc, ready, flags, n + 1, intake, world) {
            Ok(fails) => failed |= fails,
            Err(stop) => return Pass { stop, failed },
        }
        n += 1;
    }
}
