//! What is said at the end of a run, and its status.
ghost use Rattle.std.specs.Prelude.{IsSome, ◌≡◌};
ghost use Rattle.bt_commands.specs.Outside.{SaysOnly};
ghost use Rattle.bt_run.specs.Report as spec;

use crate::lines::{answers_line, releases_line, taken_line};
use bt_commands::limits::INPUT_BOUND;
use bt_commands::lines::{bound_line, long_line};
use bt_commands::status::Status;
use bt_desk::report::{Ending, Report};
use bt_ports::world::World;

// Says how many answers failed, where any did.
fn say_answers<W: World>(faults: u64, world: &mut W)
    ensures { SaysOnly ⟦<W as World>⟧ (spec.answer_lines faults) world.old world.new }
{
    if faults > 0 {
        world.err(answers_line(faults).as_str().as_bytes());
    }
}

// Says the line of the run's fault, where it has one.
fn say_fault<W: World>(report: &Report, world: &mut W)
    ensures { SaysOnly ⟦<W as World>⟧ (spec.fault_lines report.now.ending report.now.answer_faults) world.old world.new }
{
    match report.ending {
        None => {}
        Some(Ending::Ended) => say_answers(report.answer_faults, world),
        Some(Ending::ReadFault) => world.err(b"source: read fault"),
        Some(Ending::LongLine(n)) => world.err(long_line(n).as_str().as_bytes()),
        Some(Ending::Bound) => world.err(bound_line(INPUT_BOUND).as_str().as_bytes()),
        Some(Ending::NoMemory) => world.err(b"no memory"),
    }
}

/// Says the line of the run's fault and the two lines of its report. It takes no memory.
pub(crate) fn say_report<W: World>(report: &Report, world: &mut W)
    ensures { SaysOnly ⟦<W as World>⟧ (spec.report_lines report.now) world.old world.new }
{
    say_fault(report, world);
    world.err(taken_line(report).as_str().as_bytes());
    world.err(releases_line(report).as_str().as_bytes());
}

// The status of a run whose input was read to its end.
fn refusal_status(report: &Report) -> Status
    ensures { result ≡ spec.refusal_status report.now.refused report.now.refused_memory }
{
    if report.refused > report.refused_memory {
        Status::Refused
    } else if report.refused_memory > 0 {
        Status::Memory
    } else {
        Status::Done
    }
}

// The same, where an answer may have failed.
fn ended_status(report: &Report) -> Status
    ensures { result ≡ spec.ended_status report.now.answer_faults report.now.refused report.now.refused_memory }
{
    if report.answer_faults > 0 {
        Status::Output
    } else {
        refusal_status(report)
    }
}

/// The status of a run that ended.
pub(crate) fn report_status(report: &Report) -> Status
    requires { IsSome report.now.ending }
    ensures { spec.StatusOf report.now.ending report.now.answer_faults report.now.refused report.now.refused_memory result }
{
    match report.ending {
        None | Some(Ending::Ended) => ended_status(report),
        Some(Ending::ReadFault) => Status::Input,
        Some(Ending::LongLine(_)) | Some(Ending::Bound) => Status::Bound,
        Some(Ending::NoMemory) => Status::Memory,
    }
}
