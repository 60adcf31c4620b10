//! A ledger beside a plain one that walks through everything it has.
//!
//! A line of the standard input is a case: `window` and a name, for a window of one transaction; or
//! `random`, a name, the sizes of the window and the pool, how many calls are made, and the first of the numbers that
//! choose them, for calls that are made on both ledgers and after each of which everything that can be asked is compared;
//! or `serve`, a name, the size of the window, how many transactions are served in it, how many items each has, and whether
//! their parts are settled from the last one on.
#![tactic(auto)]

mod both;
mod numbers;
mod plain;
mod random;
mod serve;
mod shapes;
mod window;

use numbers::number;
use std::alloc::{AllocError, Global};
use std::io;

// What the case of the line gives.
fn report(alloc: Global, line: &str) -> Result<String, AllocError> {
    let mut fields = line.split(';');
    let kind = fields.next().unwrap_or("");
    let name = fields.next().unwrap_or("");
    let window = number(fields.next().unwrap_or(""));
    let entries = number(fields.next().unwrap_or(""));
    let calls = number(fields.next().unwrap_or(""));
    let seed = number(fields.next().unwrap_or(""));
    let told = match kind {
        "window" => window::told(alloc),
        "serve" => serve::told(alloc, window, entries, calls, seed > 0),
        _ => random::told(alloc, window, entries, calls, seed),
    };
    match told {
        Ok(told) => format!(in alloc; "{name}: {told}\n"),
        Err(_) => format!(in alloc; "{name}: no memory\n"),
    }
}

fn main(rt: HostRuntime) -> io::Result<()> {
    for line in rt.lines(rt.alloc()) {
        let text = report(rt.alloc(), line?.as_str())?;
        print!(rt; "{text}")?;
    }
    Ok(())
}
