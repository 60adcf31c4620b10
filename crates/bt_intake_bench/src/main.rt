//! Cuts lines of 120 bytes in memory, to be timed: bench/delimiters runs it.
//!
//! Each line of the standard input is a delimiter, in which `\n` stands for a line feed, a blank, and how many lines are
//! made and cut. The number of items that came is printed. With `-` in the delimiter's place they are made alone.
#![tactic(auto)]

ghost use Rattle.std.specs.Prelude.{◌≡◌, IfOk};

use bt_intake::intake::LineIntake;
use bt_intake::policy::Policy;
use bt_ports::NoMemory;
use bt_ports::blob::Blob;
use bt_ports::memory::source::MemSource;
use bt_ports::outside::Intake;
use bt_ports::parts::{Named, Next};
use bt_ports::sequence::Sequence;
use std::alloc::Global;
use std::io;

/// All but the last two of a line's bytes.
const FRONT: &[u8] =
    b"{\"level\":\"info\",\"service\":\"checkout\",\"request\":\"GET /orders/7\",\"message\":\"payment was taken and is on its way\",\"try\":";

// A source of so many lines.
fn source(alloc: Global, delimiter: &[u8], count: u32) -> Result<MemSource, NoMemory>
    ensures { IfOk result (λ s. s.taken ≡ 0) }
{
    let mut bytes = Vec::new(alloc);
    for i in 0..count {
        bytes.extend_from_slice(FRONT)?;
        bytes.extend_from_slice(&[b'0' + (i % 10) as u8, b'}'])?;
        bytes.extend_from_slice(delimiter)?;
    }
    Ok(MemSource::make(Blob::from_vec(bytes), 4096, Sequence::new(alloc)))
}

// How many items come of them.
fn items(alloc: Global, delimiter: &[u8], count: u32) -> Result<u32, NoMemory> {
    let delimiter = if delimiter.is_empty() || delimiter.len() > 16 {
        b"\n".as_slice()
    } else {
        delimiter
    };
    let mut sources = Sequence::new(alloc);
    sources.push(Named {
        path: None,
        source: source(alloc, delimiter, count)?,
    })?;
    let delimiter = Blob::make(alloc, delimiter)?;
    let mut intake = LineIntake::make(alloc, sources, delimiter, Policy::SINGLE, 1 << 48)?;
    let mut items: u32 = 0;
    'items: for _ in 0..u32::MAX {
        match intake.next() {
            Next::Batch(_) => items = items.saturating_add(1),
            _ => break,
        }
    }
    Ok(items)
}

// What a line of the standard input asks for.
fn asked(alloc: Global, line: &str) -> Result<u32, NoMemory> {
    let (delimiter, count) = line.split_once(' ').unwrap_or((line, ""));
    let count = count.parse::<u32>().unwrap_or(0);
    if delimiter == "-" {
        drop(source(alloc, b"\n", count)?);
        return Ok(0);
    }
    let delimiter = if delimiter == "\\n" { "\n" } else { delimiter };
    items(alloc, delimiter.as_bytes(), count)
}

fn main(rt: HostRuntime) -> io::Result<()> {
    for line in rt.lines(rt.alloc()) {
        match asked(rt.alloc(), line?.as_str()) {
            Ok(items) => println!(rt; "{items}")?,
            Err(NoMemory) => println!(rt; "no memory")?,
        }
    }
    Ok(())
}
