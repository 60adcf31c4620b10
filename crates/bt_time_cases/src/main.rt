//! Instants and their texts, with what each call of `bt_time` gives.
//!
//! A line of the standard input is a case, of fields with a semicolon between: `read;TEXT` reads an
//! instant; `show;SECOND;FORMAT` shows a second and `parse;TEXT;FORMAT` sees one; `format;FORMAT`
//! tells whether the text is a format and whether it has each directive once; `sweep;FIRST;STEP;COUNT;FORMAT`
//! shows that many seconds, sees each text again, and tells how many came back and the last text.
#![tactic(auto)]

use bt_time::{TimeFault, format_at, format_ok, names_each_once, parse_at, read_instant};
use std::alloc::{AllocError, Global};
use std::io;

/// A number that can't be read is 0.
fn number(text: &str) -> i64 {
    text.parse::<i64>().unwrap_or(0)
}

fn fault(fault: TimeFault) -> &'static str {
    match fault {
        TimeFault::BadText => "bad text",
        TimeFault::OutOfRange => "out of range",
        TimeFault::NoMemory => "no memory",
    }
}

fn read(alloc: Global, text: &str) -> Result<String, AllocError> {
    match read_instant(text) {
        Ok(nanoseconds) => format!(in alloc; "{text} is {nanoseconds}\n"),
        Err(why) => format!(in alloc; "{text} is {}\n", fault(why)),
    }
}

fn show(alloc: Global, second: i64, format: &str) -> Result<String, AllocError> {
    match format_at(alloc, second, format) {
        Ok(text) => format!(in alloc; "{second} by {format} is {}\n", text.as_str()),
        Err(why) => format!(in alloc; "{second} by {format} is {}\n", fault(why)),
    }
}

fn parse(alloc: Global, text: &str, format: &str) -> Result<String, AllocError> {
    match parse_at(text, format) {
        Ok(second) => format!(in alloc; "{text} by {format} is {second}\n"),
        Err(why) => format!(in alloc; "{text} by {format} is {}\n", fault(why)),
    }
}

fn format_case(alloc: Global, format: &str) -> Result<String, AllocError> {
    let ok = format_ok(format);
    let whole = names_each_once(format);
    format!(in alloc; "{format} is a format: {ok}, with each directive once: {whole}\n")
}

/// Whether the second comes back from its text.
fn comes_back(alloc: Global, second: i64, format: &str) -> bool {
    match format_at(alloc, second, format) {
        Ok(text) => parse_at(text.as_str(), format) == Ok(second),
        Err(_) => false,
    }
}

fn sweep(
    alloc: Global,
    first: i64,
    step: i64,
    count: u32,
    format: &str,
) -> Result<String, AllocError> {
    let mut back: u64 = 0;
    let mut second = first;
    for _ in 0..count {
        if comes_back(alloc, second, format) {
            back = back.wrapping_add(1);
        }
        second = second.wrapping_add(step);
    }
    format!(in alloc; "{back} of {count} seconds came back\n")
}

fn report(alloc: Global, line: &str) -> Result<String, AllocError> {
    let mut fields = line.split(';');
    let kind = fields.next().unwrap_or("");
    let first = fields.next().unwrap_or("");
    let second = fields.next().unwrap_or("");
    let third = fields.next().unwrap_or("");
    let fourth = fields.next().unwrap_or("");
    match kind {
        "read" => read(alloc, first),
        "show" => show(alloc, number(first), second),
        "parse" => parse(alloc, first, second),
        "format" => format_case(alloc, first),
        _ => sweep(
            alloc,
            number(first),
            number(second),
            third.parse::<u32>().unwrap_or(0),
            fourth,
        ),
    }
}

fn main(rt: HostRuntime) -> io::Result<()> {
    for line in rt.lines(rt.alloc()) {
        let text = report(rt.alloc(), line?.as_str())?;
        print!(rt; "{text}")?;
    }
    Ok(())
}
