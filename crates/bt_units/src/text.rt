//! What is printed of tests.
ghost use Rattle.std.specs.Prelude.{◌≡◌, ◌++◌, ◌∷◌, [], IfOk, OnOk, codes, count_by, decimal, map, not, string_bytes};
ghost use Rattle.bt_expectations.specs.declared.failure.Failure.TheVariants as failure;
ghost use Rattle.std.specs.List.{flat_map};
ghost use Rattle.bt_units.specs.Text as spec;

use crate::end::TestEnd;
use bt_expectations::{Failure, name_of};
use bt_ports::NoMemory;
use bt_ports::blob::Blob;
use sqlite_items::Items;
use std::alloc::{AllocError, Global};

/// Lines, each with its line break.
pub type Lines = Items<Blob>;

/// Whether something of a test failed.
pub fn has_failed(end: &TestEnd) -> bool
    ensures { result ≡ spec.has_failed end.now }
{
    !end.failures.is_empty()
}

/// The lines that are printed of tests: `test NAME ok` or `test NAME failed` and a line for each failure, and last how many passed
/// and how many failed.
pub fn test_text(alloc: Global, ends: &[TestEnd]) -> Result<Lines, NoMemory>
    ensures { IfOk result (λ ls. ls ≡ spec.test_text ends.now) }
{
    let mut lines = Items::new(alloc);
    push_ends(alloc, ends, &mut lines)?;
    let line = sum_line(alloc, passed(ends), failed(ends))?;
    push(line, &mut lines)?;
    Ok(lines)
}

fn push(line: String, lines: &mut Lines) -> Result<(), NoMemory>
    ensures { OnOk result (lines.new ≡ lines.old ++ string_bytes line ∷ []) }
{
    match lines.push(Blob::from_vec(line.into_bytes())) {
        Ok(()) => Ok(()),
        Err(_) => Err(NoMemory),
    }
}

fn push_ends(alloc: Global, ends: &[TestEnd], lines: &mut Lines) -> Result<(), NoMemory>
    ensures { OnOk result (lines.new ≡ lines.old ++ flat_map spec.lines_of ends.now) }
{
    for end in ends {
        push_end(alloc, end, lines)?;
    }
    Ok(())
}

fn push_end(alloc: Global, end: &TestEnd, lines: &mut Lines) -> Result<(), NoMemory>
    ensures { OnOk result (lines.new ≡ lines.old ++ spec.lines_of end.now) }
{
    let line = end_line(alloc, end)?;
    push(line, lines)?;
    push_failures(alloc, end.failures.as_slice(), lines)
}

fn push_failures(alloc: Global, failures: &[Failure], lines: &mut Lines) -> Result<(), NoMemory>
    ensures { OnOk result (lines.new ≡ lines.old ++ map spec.failure_line failures.now) }
{
    for failure in failures {
        let line = failure_line(alloc, *failure)?;
        push(line, lines)?;
    }
    Ok(())
}

fn end_line(alloc: Global, end: &TestEnd) -> Result<String, AllocError>
    ensures { IfOk result (λ line. string_bytes line ≡ spec.end_line end.now) }
{
    let name = end.name.as_str();
    if has_failed(end) {
        format!(in alloc; "test {name} failed\n")
    } else {
        format!(in alloc; "test {name} ok\n")
    }
}

fn failure_line(alloc: Global, failure: Failure) -> Result<String, AllocError>
    ensures { IfOk result (λ line. string_bytes line ≡ spec.failure_line failure) }
{
    match failure {
        Failure::Batches { expected, got } => batches_line(alloc, expected, got),
        Failure::Messages {
            batch,
            expected,
            got,
        } => messages_line(alloc, batch, expected, got),
        Failure::Condition {
            batch,
            message,
            condition,
        } => condition_line(alloc, batch, message, name_of(condition)),
    }
}

fn batches_line(alloc: Global, expected: u32, got: u32) -> Result<String, AllocError>
    ensures { IfOk result (λ line. string_bytes line ≡ spec.failure_line (failure.Batches expected got)) }
{
    let line = format!(in alloc; "  batches: expected {expected}, got {got}\n")?;
    Ok(line)
}

fn messages_line(alloc: Global, batch: u32, expected: u32, got: u32) -> Result<String, AllocError>
    ensures { IfOk result (λ line. string_bytes line ≡ spec.failure_line (failure.Messages batch expected got)) }
{
    let line = format!(in alloc; "  batch {batch}: expected {expected} messages, got {got}\n")?;
    Ok(line)
}

fn condition_line(alloc: Global, batch: u32, message: u32, name: &str) -> Result<String, AllocError>
    ensures { IfOk result (λ line. string_bytes line
        ≡ codes "  batch " ++ decimal batch ++ codes " message " ++ decimal message ++ codes ": " ++ name.now ++ codes "\n") }
{
    let line = format!(in alloc; "  batch {batch} message {message}: {name}\n")?;
    Ok(line)
}

fn sum_line(alloc: Global, passed: usize, failed: usize) -> Result<String, AllocError>
    ensures { IfOk result (λ line. string_bytes line ≡ spec.sum_line passed failed) }
{
    let line = format!(in alloc; "tests {passed} passed {failed} failed\n")?;
    Ok(line)
}

fn passed(ends: &[TestEnd]) -> usize
    ensures { result ≡ count_by (λ e. not (spec.has_failed e)) ends.now }
{
    ends.iter().filter(|end| !has_failed(end)).count()
}

fn failed(ends: &[TestEnd]) -> usize
    ensures { result ≡ count_by spec.has_failed ends.now }
{
    ends.iter().filter(|end| has_failed(end)).count()
}
