//! The lines of a run's report.
ghost use Rattle.std.specs.Prelude.{◌≡◌};
ghost use Rattle.bt_reports.specs.Report.{answers_line, taken_line, releases_line};

use bt_commands::lines::{Line, push_number};
use bt_duties::report::Report;

/// `answers: N faults`.
pub(crate) fn answers_line(n: u64) -> Line
    ensures { result.bytes ≡ answers_line n }
{
    let mut line = Line::new();
    line.push_str("answers: ");
    push_number(&mut line, n);
    line.push_str(" faults");
    line
}

/// `taken T acknowledged A refused R`.
pub(crate) fn taken_line(report: &Report) -> Line
    ensures { result.bytes ≡ taken_line report.now }
{
    let mut line = Line::new();
    line.push_str("taken ");
    push_number(&mut line, report.taken);
    line.push_str(" acknowledged ");
    push_number(&mut line, report.counts.acked);
    line.push_str(" refused ");
    push_number(&mut line, report.counts.refused);
    line
}

/// `releases count A bytes B check C period D stall E room F end G`.
pub(crate) fn releases_line(report: &Report) -> Line
    ensures { result.bytes ≡ releases_line report.now }
{
    let mut line = Line::new();
    line.push_str("releases count ");
    push_number(&mut line, report.counts.count);
    line.push_str(" bytes ");
    push_number(&mut line, report.counts.bytes);
    line.push_str(" check ");
    push_number(&mut line, report.counts.check);
    line.push_str(" period ");
    push_number(&mut line, report.counts.period);
    line.push_str(" stall ");
    push_number(&mut line, report.counts.stall);
    line.push_str(" room ");
    push_number(&mut line, report.counts.room);
    line.push_str(" end ");
    push_number(&mut line, report.counts.end);
    line
}
