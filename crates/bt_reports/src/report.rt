//! What is said at the end of a run, and its status.
ghost use Rattle.std.specs.Prelude.{IsSome, ◌≡◌};
ghost use Rattle.bt_commands.specs.Outside.{SaysOnly};
ghost use Rattle.bt_reports.specs.Report as spec;

use crate::lines::{answers_line, releases_line, taken_line};
use bt_commands::lines::{bound_line, long_line};
use bt_commands::status::Status;
use bt_duties::report::Report;
use bt_ports::world::World;
use bt_sound::counts::Ending;

// Says how many answers failed, where any did.
fn say_answers<W: World>(faults: u64, world: &mut W)
    ensures { SaysOnly ⟦<W as World>⟧ (spec.answer_lines faults) world.old world.new }
{
    if faults > 0 {
        world.err(answers_line(faults).as_str().as_bytes());
    }
}

// Says the line of the run's fault, where it has one.
fn say_fault<W: World>(bound: u64, report: &Report, world: &mut W)
    ensures { SaysOnly ⟦<W as World>⟧ (spec.fault_lines bound report.now.ending report.now.counts.answer_faults) world.old world.new }
{
    match report.ending {
        None => {}
        Some(Ending::Ended) => say_answers(report.counts.answer_faults, world),
        Some(Ending::ReadFault) => world.err(b"source: read fault"),
        Some(Ending::LongLine(n)) => world.err(long_line(n).as_str().as_bytes()),
        Some(Ending::Bound) => world.err(bound_line(bound).as_str().as_bytes()),
        Some(Ending::NoMemory) => world.err(b"no memory"),
    }
}

/// Says the line of the run's fault and the two lines of its report, where the input takes so many bytes at most. It takes no
/// memory.
pub fn say_report<W: World>(bound: u64, report: &Report, world: &mut W)
    ensures { SaysOnly ⟦<W as World>⟧ (spec.report_lines bound report.now) world.old world.new }
{
    say_fault(bound, report, world);
    world.err(taken_line(report).as_str().as_bytes());
    world.err(releases_line(report).as_str().as_bytes());
}

// The status of a run whose input was read to its end.
fn refusal_status(report: &Report) -> Status
    ensures { result ≡ spec.refusal_status report.now.counts.refused report.now.counts.refused_memory }
{
    if report.counts.refused > report.counts.refused_memory {
        Status::Refused
    } else if report.counts.refused_memory > 0 {
        Status::Memory
    } else {
        Status::Done
    }
}

// The same, where an answer may have failed.
fn ended_status(report: &Report) -> Status
    ensures { result ≡ spec.ended_status report.now.counts.answer_faults report.now.counts.refused report.now.counts.refused_memory }
{
    if report.counts.answer_faults > 0 {
        Status::Output
    } else {
        refusal_status(report)
    }
}

/// The status of a run that ended.
pub fn report_status(report: &Report) -> Status
    requires { IsSome report.now.ending }
    ensures { spec.StatusOf report.now.ending report.now.counts.answer_faults report.now.counts.refused report.now.counts.refused_memory result }
{
    match report.ending {
        None | Some(Ending::Ended) => ended_status(report),
        Some(Ending::ReadFault) => Status::Input,
        Some(Ending::LongLine(_)) | Some(Ending::Bound) => Status::Bound,
        Some(Ending::NoMemory) => Status::Memory,
    }
}
