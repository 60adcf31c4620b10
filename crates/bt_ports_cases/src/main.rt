//! Calls of bt_ports with ample memory, on values that were worked out by hand.
//!
//! A case is a line of the standard input: what is called, and then named fields with a space between. A value has a
//! comma between its members. `fail` has the numbers of the calls that fail, counted from 1. What the calls gave is
//! printed behind the line.
#![tactic(auto)]

mod fields;
mod lists;
mod objects;

use bt_ports::NoMemory;
use fields::Fields;
use std::alloc::Global;
use std::io;

// What the calls of the case gave.
fn given(alloc: Global, line: &str) -> Result<String, NoMemory> {
    let fields = Fields { line };
    match fields.name() {
        "text" => lists::text(alloc, &fields),
        "blob" => lists::blob(alloc, &fields),
        "sequence" => lists::sequence(alloc, &fields),
        "origins" => lists::origins(alloc, &fields),
        "source" => objects::source(alloc, &fields),
        "sink" => objects::sink(alloc, &fields),
        "answerer" => objects::answerer(alloc, &fields),
        "clock" => objects::clock(alloc, &fields),
        "printer" => objects::printer(alloc, &fields),
        _ => Ok(String::from_str(alloc, " no such case")?),
    }
}

fn main(rt: HostRuntime) -> io::Result<()> {
    for line in rt.lines(rt.alloc()) {
        let line = line?;
        match given(rt.alloc(), line.as_str()) {
            Ok(text) => println!(rt; "{line}:{text}")?,
            Err(NoMemory) => println!(rt; "{line}: no memory")?,
        }
    }
    Ok(())
}
