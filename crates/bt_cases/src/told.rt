//! What stands after a run, as text.
use bt_ports::memory::world::MemWorld;
use bt_ports::parts::{AnswerCall, Cause, Record, Verdict};
use std::alloc::{AllocError, Global};

// The bytes as text, or a question mark where they are none.
fn text(bytes: &[u8]) -> &str {
    str::from_utf8(bytes).unwrap_or("?")
}

fn push_record(all: &mut String, mark: &str, record: &Record) -> Result<(), AllocError> {
    let bytes = text(record.bytes.as_slice());
    writeln!(
        all,
        "  {mark} {} {} {} {} {bytes}",
        record.txn, record.part, record.leaf, record.batch
    )
}

fn push_verdict(all: &mut String, verdict: Verdict) -> Result<(), AllocError> {
    match verdict {
        Verdict::Ack => all.push_str("ack"),
        Verdict::Refused(Cause::SinkFault { leaf, part }) => {
            write!(all, "refused sink fault leaf {leaf} part {part}")
        }
        Verdict::Refused(Cause::Rejected { part }) => write!(all, "refused rejected part {part}"),
        Verdict::Refused(Cause::NoMemory) => all.push_str("refused no memory"),
    }
}

fn push_answer(all: &mut String, answer: &AnswerCall) -> Result<(), AllocError> {
    write!(all, "  = {} {} ", answer.number, answer.item)?;
    push_verdict(all, answer.verdict)?;
    all.push_str(if answer.failed { ", failed\n" } else { "\n" })
}

// The printed lines, a line each, and whether the last one has no line break.
fn push_printed(all: &mut String, printed: &str) -> Result<(), AllocError> {
    for line in printed.lines() {
        writeln!(all, "  > {line}")?;
    }
    if !printed.is_empty() && !printed.ends_with('\n') {
        all.push_str("  (without a line break)\n")?;
    }
    Ok(())
}

/// The accepted records, the refused ones, the answers, what was printed, how many sources were kept as input, and the
/// lines of `err`, a line each.
pub fn told(alloc: Global, world: &MemWorld) -> Result<String, AllocError> {
    let mut all = String::new(alloc);
    if let Some(ends) = world.kept() {
        for sink in ends.sinks.as_slice() {
            for record in sink.accepted().as_slice() {
                push_record(&mut all, "+", record)?;
            }
            for record in sink.refused().as_slice() {
                push_record(&mut all, "-", record)?;
            }
        }
        for answer in ends.answerer.answers().as_slice() {
            push_answer(&mut all, answer)?;
        }
    }
    push_printed(&mut all, text(world.bytes().as_slice()))?;
    if let Some(sources) = world.kept_input() {
        writeln!(&mut all, "  kept {}", sources.len())?;
    }
    for line in world.lines().as_slice() {
        writeln!(all, "  {}", text(line.as_slice()))?;
    }
    Ok(all)
}
