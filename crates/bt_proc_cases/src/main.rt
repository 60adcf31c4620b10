//! Runs processors on batches, and prints the batches that come.
//!
//! Two lines of the standard input are a case: the list of processors of a configuration, and the batch as a list of
//! messages. Message i has the origin i alone. A text is the content of a message without metadata; an object with the
//! key `content` has it, `meta` and `flag`; any other value is a content as compact JSON. The object `{"numbered":N}` in
//! the place of a list stands for N messages, of which message i is `{"n":i}`. The moment is 0.
//!
//! Each batch that comes stands on a line of its own, its messages in the same form, and then their origins. Of a batch
//! with more than nine messages the first and the last are shown.
#![tactic(auto)]

mod batches;
mod shown;
mod texts;
mod wrong;

use bt_compile::{ProcsFault, compile_procs};
use bt_config::{Config, read_config};
use bt_proc::{Batch, Batches, Procs, process};
use std::alloc::{AllocError, Global};
use std::io;
use wrong::Wrong;

// The configuration that has the processors of a list.
fn configuration(alloc: Global, list: &str) -> Result<Config, Wrong> {
    let text = format!(in alloc; "{{\"pipeline\":{{\"processors\":{list}}}}}")?;
    match read_config(alloc, text.as_bytes()) {
        Ok(config) => Ok(config),
        Err(_) => Err(Wrong::NoCase),
    }
}

fn processors(alloc: Global, list: &str) -> Result<Procs, Wrong> {
    let config = configuration(alloc, list)?;
    match compile_procs(alloc, &config, "/pipeline/processors") {
        Ok(procs) => Ok(procs),
        Err(ProcsFault::NoMemory) => Err(Wrong::NoMemory),
        Err(_) => Err(Wrong::NoCase),
    }
}

// What the processors of a list make of a batch.
fn made(alloc: Global, list: &str, batch: Batch) -> Result<Batches, Wrong> {
    let procs = processors(alloc, list)?;
    Ok(process(alloc, &procs, batch, 0)?)
}

fn outcome(alloc: Global, list: &str, messages: &str) -> Result<String, Wrong> {
    let batch = batches::read(alloc, messages)?;
    let batches = made(alloc, list, batch)?;
    shown::batches(alloc, batches)
}

// The case of two lines, with what comes of it.
fn report(alloc: Global, list: &str, messages: &str) -> Result<String, AllocError> {
    match outcome(alloc, list, messages) {
        Ok(text) => format!(in alloc; "{list}\n{messages}\n{text}"),
        Err(Wrong::NoCase) => format!(in alloc; "{list}\n{messages}\n  no case\n"),
        Err(Wrong::NoMemory) => format!(in alloc; "{list}\n{messages}\n  no memory\n"),
    }
}

fn main(rt: HostRuntime) -> io::Result<()> {
    let mut first = None;
    for line in rt.lines(rt.alloc()) {
        let line = line?;
        match first.take() {
            None => first = Some(line),
            Some(list) => {
                let list: String = list;
                let text = report(rt.alloc(), list.as_str(), line.as_str())?;
                print!(rt; "{text}")?;
            }
        }
    }
    Ok(())
}
