//! Reads, writes, compares and changes values, looks into texts, and prints what comes of it.
//!
//! A case is a line of the standard input: what is done, and then fields `name=text`, with semicolons between. A value is
//! given as JSON text, a path by its names with dots between, and a list of keys with commas between. What comes of a case
//! stands on the line after it, a value as its compact text.
#![tactic(auto)]

mod case;
mod fault;
mod looks;
mod members;
mod names;
mod paths;
mod texts;

use case::Case;
use fault::Fault;
use std::alloc::{AllocError, Global};
use std::io;

fn outcome(alloc: Global, case: Case<'_>) -> Result<String, Fault> {
    match case.action() {
        "read" => texts::read(alloc, case.field("text").as_bytes()),
        "read bytes" => texts::read_bytes(alloc, case.field("bytes")),
        "read nested" => texts::read_nested(alloc, case.number("levels")),
        "read many" => members::read_many(alloc, case),
        "write after" => texts::write_after(alloc, case.field("before"), case.field("text")),
        "write pretty" => texts::pretty(alloc, case.field("text")),
        "copy" => texts::copied(alloc, case.field("text")),
        "compare" => texts::compared(alloc, case.field("left"), case.field("right")),
        "deeper" => texts::is_deeper(alloc, case.field("text"), case.number("limit")),
        "look" => looks::in_text(alloc, case),
        "look in tree" => looks::in_tree(alloc, case),
        "get" => paths::get(alloc, case),
        "set" => paths::set(alloc, case),
        "delete" => paths::delete(alloc, case),
        "put" => members::put(alloc, case),
        "from pairs" => members::from_pairs(alloc, case.field("keys")),
        "method" => names::method(alloc, case.field("name")),
        "function" => names::function(alloc, case.field("name")),
        "copy message" => names::copied_message(alloc, case),
        _ => Err(Fault::Unknown),
    }
}

// What comes of the case of the line.
fn report(alloc: Global, line: &str) -> Result<String, AllocError> {
    match outcome(alloc, Case::of(line)) {
        Ok(text) => format!(in alloc; "{line}\n  {text}\n"),
        Err(fault) => format!(in alloc; "{line}\n  {fault}\n"),
    }
}

fn main(rt: HostRuntime) -> io::Result<()> {
    for line in rt.lines(rt.alloc()) {
        let text = report(rt.alloc(), line?.as_str())?;
        print!(rt; "{text}")?;
    }
    Ok(())
}
