//! Calls of a pool, with what each gives.
//!
//! A line of the standard input is the case `calls` or the case `random`, of fields with a semicolon between. `calls` has
//! a name, the numbers of entries and of chains, and the calls: `push=0,7` puts an entry with the part 7 into chain 0;
//! `pop=0`, `front=0`, `first=0` and `len=0` ask that chain, `after=1` and `entry=1` that place, and `free` the pool.
//! `random` has a name, the numbers of entries and of chains, how many calls are made beside a plain list that each call
//! searches, and the first of the numbers that choose them.
#![tactic(auto)]

mod calls;
mod random;

use std::alloc::{AllocError, Global};
use std::io;

/// A number that can't be read is 0.
pub(crate) fn number(text: &str) -> u32 {
    text.parse::<u32>().unwrap_or(0)
}

// What the case of the line gives.
fn report(alloc: Global, line: &str) -> Result<String, AllocError> {
    let mut fields = line.split(';');
    let kind = fields.next().unwrap_or("");
    let name = fields.next().unwrap_or("");
    let entries = number(fields.next().unwrap_or(""));
    let chains = number(fields.next().unwrap_or(""));
    let calls = fields.next().unwrap_or("");
    let seed = number(fields.next().unwrap_or(""));
    let told = if kind == "calls" {
        calls::told(alloc, entries, chains, calls)?
    } else {
        random::told(alloc, entries, chains, number(calls), seed)?
    };
    format!(in alloc; "{name}:{told}\n")
}

fn main(rt: HostRuntime) -> io::Result<()> {
    for line in rt.lines(rt.alloc()) {
        let text = report(rt.alloc(), line?.as_str())?;
        print!(rt; "{text}")?;
    }
    Ok(())
}
