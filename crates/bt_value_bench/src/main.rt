//! Times reading, writing and looking at the messages that are the lines of the standard input.
//!
//! The first argument is the number of rounds, none if there is none. A round prints a line for each way: its name, the
//! microseconds that all messages took, and a sum that shows what was done.
#![tactic(auto)]

mod ways;

use bt_ports::blob::Blob;
use json::Scratch;
use std::alloc::Global;
use std::io::Read;
use std::time::Instant;
use std::{env, io};
use ways::{WAYS, go};

// The lines that are not empty.
fn lines_of(alloc: Global, all: &[u8]) -> io::Result<Vec<Vec<u8>>> {
    let mut lines = Vec::new(alloc);
    let mut line = Vec::new(alloc);
    for byte in all {
        if *byte == b'\n' {
            lines.push(line)?;
            line = Vec::new(alloc);
        } else {
            line.push(*byte)?;
        }
    }
    drop(line);
    Ok(lines)
}

fn round(
    rt: &HostRuntime,
    lines: &[Vec<u8>],
    scratch: &mut Scratch,
    buffer: &mut Blob,
) -> io::Result<()> {
    for way in WAYS {
        let start = Instant::now(rt)?;
        let mut sum: usize = 0;
        for line in lines {
            sum = sum.wrapping_add(go(rt.alloc(), way, line.as_slice(), scratch, buffer));
        }
        let micros = start.elapsed(rt)?.as_micros();
        println!(rt; "{way} {micros} {sum}")?;
    }
    Ok(())
}

fn main(rt: HostRuntime) -> io::Result<()> {
    let args: Vec<String> = env::args(&rt)?.skip(1).collect(rt.alloc())?;
    let rounds = match args.as_slice().first() {
        Some(text) => text.as_str().parse::<u32>().unwrap_or(0),
        None => 0,
    };
    let mut all = Vec::new(rt.alloc());
    rt.reader().read_to_end(&mut all)?;
    let lines = lines_of(rt.alloc(), all.as_slice())?;
    let mut scratch = Scratch::new(rt.alloc());
    let mut buffer = Blob::new(rt.alloc());
    for _ in 0..rounds {
        round(&rt, lines.as_slice(), &mut scratch, &mut buffer)?;
    }
    Ok(())
}
